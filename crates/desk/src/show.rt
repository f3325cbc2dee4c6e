// The numbers of a plan, or its refusal: a line "cores policy n", then a line "flag T C D" for each task.
use table::{Table, Task};

// A number, and then one byte.
fn put(n: u32, after: &[u8]) {
    io::print_decimal(1, u64::from(n));
    io::write_all(1, after);
}

fn put_task(t: Task) {
    put(t.flag, b" ");
    put(t.period, b" ");
    put(t.cost, b" ");
    put(t.deadline, b"\n");
}

fn put_table(t: Table) {
    put(t.cores, b" ");
    put(t.policy, b" ");
    io::print_decimal(1, t.n as u64);
    io::write_all(1, b"\n");
    for task in t.tasks.iter().take(t.n) {
        put_task(*task);
    }
}

pub fn show(text: &[u8]) {
    let reading = reader::read_plan(text);
    match reading.answer {
        Ok(()) => put_table(reading.table),
        Err(why) => super::refuse(why.number, why.place, 0),
    }
}
