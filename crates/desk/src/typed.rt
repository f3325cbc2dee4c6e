// A table from decimal numbers: cores, policy, n, and then a line for each task, flag T C D and perhaps its
// level, without which its place counts.
ghost use Rattle.std.specs.Prelude.{◌≤◌, length};

use table::{NO_TASK, Table, Task};

// The place of the first byte from here on that parts no words.
fn skip(s: &[u8], from: usize) -> usize
    requires { from ≤ length s.now }
    ensures { result ≤ length s.now }
{
    for i in from..s.len() {
        if !matches!(s[i], b' ' | b'\n') {
            return i;
        }
    }
    s.len()
}

// One digit more. From 4,294,967,290 on every number is the largest.
fn more(value: u32, digit: u8) -> u32 {
    if 9 < digit || 429496728 < value {
        return u32::MAX;
    }
    10 * value + u32::from(digit)
}

// The decimal number that stands next; the place goes behind it.
fn number(s: &[u8], at: &mut usize) -> Option<u32>
    requires { at.old ≤ length s.now }
    ensures { at.new ≤ length s.now }
{
    let first = skip(s, *at);
    let mut value = 0;
    *at = s.len();
    for i in first..s.len() {
        let b = s[i];
        if !(b'0'..=b'9').contains(&b) {
            *at = i;
            break;
        }
        value = more(value, b - b'0');
    }
    (first < *at).then_some(value)
}

// Whether a word more stands in the line.
fn goes_on(s: &[u8], from: usize) -> bool
    requires { from ≤ length s.now }
{
    for i in from..s.len() {
        if s[i] != b' ' {
            return s[i] != b'\n';
        }
    }
    false
}

// The numbers of the task that stand next; its level is the rest of the line, or else the place.
fn task_in(s: &[u8], at: &mut usize, place: u32) -> Option<Task>
    requires { at.old ≤ length s.now }
    ensures { at.new ≤ length s.now }
{
    let flag = number(s, at)?;
    let period = number(s, at)?;
    let cost = number(s, at)?;
    let deadline = number(s, at)?;
    let level = if goes_on(s, *at) {
        number(s, at)?
    } else {
        place
    };
    Some(Task {
        flag,
        period,
        cost,
        deadline,
        level,
    })
}

// The table that the numbers are of. Of more than 32 tasks none is looked at.
pub fn table_in(s: &[u8]) -> Option<Table> {
    let mut at = 0;
    let cores = number(s, &mut at)?;
    let policy = number(s, &mut at)?;
    let n = number(s, &mut at)? as usize;
    let mut tasks = [NO_TASK; 32];
    if n <= 32 {
        for i in 0..n {
            let task = task_in(s, &mut at, i as u32 + 1)?;
            tasks[i] = task;
        }
        if skip(s, at) < s.len() {
            return None;
        }
    }
    Some(Table {
        cores,
        policy,
        n,
        tasks,
    })
}
