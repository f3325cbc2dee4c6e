// Every sum done by hand of document 01, run through the planner's answers by value: the lettered cases,
// the numbers at the borders, and the digits; then levels. The file `stdout` is written from the documents'
// text.
#![tactic(auto)]

use planner::{Answer, Done, Job, Verdict};
use table::Task;

fn task(period: u32, cost: u32, deadline: u32, flag: u32) -> Task {
    Task {
        flag,
        period,
        cost,
        deadline,
        level: 1,
    }
}

// The same task on a level.
fn on(t: Task, level: u32) -> Task {
    Task { level, ..t }
}

// The first three tasks of a list, with their places as levels.
fn three(a: Task, b: Task, c: Task) -> [Task; 32] {
    let none = task(0, 0, 0, 0);
    let mut tasks = [none; 32];
    tasks[0] = on(a, 1);
    tasks[1] = on(b, 2);
    tasks[2] = on(c, 3);
    tasks
}

// A word and a number after it.
fn put(word: &[u8], x: u32) {
    io::write_all(1, word);
    io::print_decimal(1, u64::from(x));
}

// Forcing has passes, a test has none.
fn put_verdict(v: Verdict) {
    if v.passes != 0 {
        put(b" forced ", v.forced);
        put(b" passes ", v.passes);
        return;
    }
    if v.yes {
        io::write_all(1, b" yes");
    } else {
        io::write_all(1, b" no");
    }
}

fn put_answer(answer: Answer) {
    match answer {
        Ok(v) => put_verdict(v),
        Err(stop) => {
            put(b" refused ", stop.why.number);
            put(b" place ", stop.why.place);
            put(b" passes ", stop.passes);
        }
    }
}

// A task without a bound shows as none.
fn put_bound(bound: u32) {
    if bound == 0 {
        io::write_all(1, b" none");
    } else {
        put(b" ", bound);
    }
}

// A line for one case: its name, the answer, the bounds in the first three records that are written.
fn show(name: &[u8], d: Done) {
    io::write_all(1, name);
    put_answer(d.answer);
    for r in d.recs.iter().take(d.count.min(3)) {
        put_bound(r.bound);
    }
    io::write_all(1, b"\n");
}

// The lettered cases of one core and two tasks: a to f.
fn pairs() {
    let none = task(0, 0, 0, 0);
    let low = task(24, 9, 18, 1);
    let a = three(task(12, 4, 12, 1), low, none);
    let c = three(task(12, 4, 11, 1), low, none);
    let d = three(task(12, 4, 11, 1), task(24, 9, 18, 0), none);
    show(b"a", planner::list_done(1, 1, 2, a, Job::Test, 32));
    show(b"b", planner::list_done(1, 1, 2, a, Job::Force, 32));
    show(b"c", planner::list_done(1, 1, 2, c, Job::Test, 32));
    show(b"d", planner::list_done(1, 1, 2, d, Job::Force, 32));
    show(b"e", planner::list_done(1, 0, 2, a, Job::Test, 32));
    show(b"f", planner::list_done(1, 0, 2, a, Job::Force, 32));
}

// The cases of three tasks, of one task alone, and of the empty text: g to l.
fn others() {
    let none = task(0, 0, 0, 0);
    let high = task(10, 4, 10, 1);
    let g = three(high, high, task(20, 8, 20, 1));
    let h = three(high, high, task(20, 8, 19, 1));
    show(b"g", planner::list_done(2, 1, 3, g, Job::Test, 32));
    show(b"h", planner::list_done(2, 1, 3, h, Job::Test, 32));
    show(b"i", planner::list_done(2, 1, 3, h, Job::Force, 32));
    show(b"j", planner::list_done(3, 1, 3, g, Job::Test, 32));
    let preemptive = three(high, none, none);
    let fixed = three(task(10, 4, 10, 0), none, none);
    show(
        b"k P",
        planner::list_done(1, 1, 1, preemptive, Job::Test, 32),
    );
    show(b"k N", planner::list_done(1, 1, 1, fixed, Job::Test, 32));
    show(b"l", planner::plan_done(b"", Job::Force, 32));
}

// Two tasks of one core on these levels.
fn two(policy: u32, first: u32, second: u32) -> Done {
    let each = task(6, 2, 6, 1);
    let mut tasks = [each; 32];
    tasks[0] = on(each, first);
    tasks[1] = on(each, second);
    planner::list_done(1, policy, 2, tasks, Job::Test, 32)
}

// Levels (document 02, Wish 8): shared, against the table's order, with a gap, and none.
fn levels() {
    show(b"levels 1 2", two(1, 1, 2));
    show(b"levels 1 1", two(1, 1, 1));
    show(b"levels 2 1", two(1, 2, 1));
    show(b"levels 7 32", two(1, 7, 32));
    show(b"levels 0 1", two(1, 0, 1));
    show(b"levels 1 33", two(1, 1, 33));
    show(b"levels 2 1 under EDF", two(0, 2, 1));
    show(b"levels 1 33 under EDF", two(0, 1, 33));
}

// The numbers at the borders.
fn borders() {
    let none = task(0, 0, 0, 0);
    let longest = task(1000000, 1, 1000000, 1);
    let many = [longest; 32];
    show(
        b"n = 32, T = 1000000",
        planner::list_done(16, 0, 32, many, Job::Test, 32),
    );
    show(
        b"n = 33",
        planner::list_done(16, 0, 33, many, Job::Test, 40),
    );
    let beyond = three(task(1000001, 1, 1000000, 1), none, none);
    show(
        b"T = 1000001",
        planner::list_done(1, 0, 1, beyond, Job::Test, 32),
    );
    let idle = three(task(10, 0, 10, 1), none, none);
    show(b"C = 0", planner::list_done(1, 0, 1, idle, Job::Test, 32));
    let late = three(task(10, 4, 11, 1), none, none);
    show(
        b"D = T + 1",
        planner::list_done(1, 0, 1, late, Job::Test, 32),
    );
}

// One task, T = 10, C = 4, D = 10, preemptive, in upper, lower and mixed case (document 02, Wish 6); and the
// letter after f.
fn digits() {
    let upper = b"01010001FD\n02010000000A000000040000000AE5\n";
    show(b"the digit A", planner::plan_done(upper, Job::Test, 32));
    let lower = b"01010001FD\n02010000000a000000040000000AE5\n";
    show(b"the digit a", planner::plan_done(lower, Job::Test, 32));
    let mixed = b"01010001fD\n02010000000a000000040000000Ae5\n";
    show(b"both cases", planner::plan_done(mixed, Job::Test, 32));
    let past = b"01010001FD\n02010000000g000000040000000AE5\n";
    show(b"the letter g", planner::plan_done(past, Job::Test, 32));
}

fn main() {
    pairs();
    others();
    borders();
    digits();
    levels();
}
