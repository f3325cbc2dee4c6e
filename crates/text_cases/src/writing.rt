// A table, or a plan as changed, written into a buffer: the answer's line, and every byte of the buffer then.
//
// The text of a case is made of words, four bytes each, the highest first. To write a table: cores, policy,
// n, the start in two words, k, then flag T C D of each of k tasks, at most 32; the bytes that follow are the
// buffer. To write a plan as changed: the start in two words, the length of the buffer, the buffer, and then
// the plan. What is missing counts as 0.
ghost use Rattle.std.specs.Prelude.{◌≤◌, length};

use table::{NO_TASK, Task};

fn byte(s: &[u8], i: usize) -> u8 {
    s.get(i).copied().unwrap_or(0)
}

// The word from this place on.
fn word(s: &[u8], i: usize) -> u32
    requires { i ≤ 10000 }
{
    u32::from_be_bytes([byte(s, i), byte(s, i + 1), byte(s, i + 2), byte(s, i + 3)])
}

// The start place in the two words from this place on.
fn start(s: &[u8], i: usize) -> usize
    requires { i ≤ 1000 }
{
    let high = word(s, i) as usize;
    let low = word(s, i + 4) as usize;
    4294967296 * high + low
}

fn task(s: &[u8], i: usize, level: u32) -> Task
    requires { i ≤ 1000 }
{
    Task {
        flag: word(s, i),
        period: word(s, i + 4),
        cost: word(s, i + 8),
        deadline: word(s, i + 12),
        level,
    }
}

// The first k tasks, with their places as levels, and zeros past them.
fn tasks(s: &[u8], k: usize) -> [Task; 32] {
    let mut all = [NO_TASK; 32];
    for i in 0..k.min(32) {
        all[i] = task(s, 24 + 16 * i, i as u32 + 1);
    }
    all
}

// The bytes from this place on, at most n, go to the start of the buffer; the answer is their number.
fn fill(s: &[u8], from: usize, n: usize, out: &mut [u8]) -> usize
    requires { from ≤ 10000 }
    ensures { result ≤ length out.new }
{
    let first = from.min(s.len());
    let count = n.min(out.len()).min(s.len() - first);
    out[..count].copy_from_slice(&s[first..first + count]);
    count
}

fn refuse(number: u32, place: u32, passes: u32) {
    io::write_all(1, b"refused ");
    io::print_decimal(1, u64::from(number));
    io::write_all(1, b" place ");
    io::print_decimal(1, u64::from(place));
    if number == 14 {
        io::write_all(1, b" passes ");
        io::print_decimal(1, u64::from(passes));
    }
    io::write_all(1, b"\n");
}

fn ended(end: usize) {
    io::write_all(1, b"written ");
    io::print_decimal(1, end as u64);
    io::write_all(1, b"\n");
}

// The buffer as a line; whether it was written.
fn say_buffer(out: &[u8]) -> bool {
    io::write_all(1, out);
    io::write_all(1, b"\n")
}

// A table is written into the buffer.
fn write_into(s: &[u8], k: usize, out: &mut [u8]) -> bool {
    let n = word(s, 8) as usize;
    match writer::write_list(word(s, 0), word(s, 4), n, tasks(s, k), out, start(s, 12)) {
        Ok(end) => ended(end),
        Err(why) => refuse(why.number, why.place, 0),
    }
    say_buffer(out)
}

// A plan is written as changed into the buffer.
fn change_into(s: &[u8], plan: &[u8], out: &mut [u8]) -> bool {
    match changer::write_changed(plan, out, start(s, 0)) {
        Ok(end) => ended(end),
        Err(stop) => refuse(stop.why.number, stop.why.place, stop.passes),
    }
    say_buffer(out)
}

// The answer to a case of writing; whether it was written.
pub fn say(text: &[u8]) -> bool {
    let k = word(text, 20) as usize;
    if 32 < k {
        return false;
    }
    let mut out = io::buffer();
    let n = fill(text, 24 + 16 * k, 4096, &mut out);
    write_into(text, k, &mut out[..n])
}

// The answer to a case of a plan to be changed; whether it was written.
pub fn say_changed(text: &[u8]) -> bool {
    let n = word(text, 8) as usize;
    if 4096 < n {
        return false;
    }
    let mut out = io::buffer();
    let room = fill(text, 12, n, &mut out);
    let at = 12 + room;
    if text.len() < at {
        return false;
    }
    change_into(text, &text[at..], &mut out[..room])
}
