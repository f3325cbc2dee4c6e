// What reading answers, in a line: every number of the table, and the sum of what stands past its last task.
use table::{Table, Task};

fn put(words: &[u8], n: u64) {
    io::write_all(1, words);
    io::print_decimal(1, n);
}

// The four numbers of a task.
fn say_task(t: Task) {
    put(b" | ", u64::from(t.flag));
    put(b" ", u64::from(t.period));
    put(b" ", u64::from(t.cost));
    put(b" ", u64::from(t.deadline));
}

// The sum of a task's numbers is below 2 ^ 34, so that none of these sums wraps.
fn add_task(sum: u64, t: Task) -> u64 {
    sum.wrapping_add(u64::from(t.flag))
        .wrapping_add(u64::from(t.period))
        .wrapping_add(u64::from(t.cost))
        .wrapping_add(u64::from(t.deadline))
}

// The sum of all numbers in the places from this one on.
fn rest(t: Table, from: usize) -> u64 {
    let mut sum = 0;
    for i in from..32 {
        sum = add_task(sum, t.tasks[i]);
    }
    sum
}

fn say_refused(number: u32, place: u32, t: Table) {
    put(b"refused ", u64::from(number));
    put(b" place ", u64::from(place));
    let numbers = u64::from(t.cores)
        .wrapping_add(u64::from(t.policy))
        .wrapping_add(t.n as u64);
    put(b" rest ", numbers.wrapping_add(rest(t, 0)));
}

fn say_read(t: Table) {
    put(b"read cores ", u64::from(t.cores));
    put(b" policy ", u64::from(t.policy));
    put(b" tasks ", t.n as u64);
    for task in t.tasks.iter().take(t.n) {
        say_task(*task);
    }
    put(b" rest ", rest(t, t.n));
}

// The line of a text; whether it was written.
pub fn say(text: &[u8]) -> bool {
    let r = reader::read_plan(text);
    match r.answer {
        Ok(()) => say_read(r.table),
        Err(why) => say_refused(why.number, why.place, r.table),
    }
    io::write_all(1, b"\n")
}
