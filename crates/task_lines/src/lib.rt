// A task's line of the listing. Document 01, "The listing".
#![tactic(auto)]

ghost use Rattle.std.specs.Prelude.{◌+◌, ◌≤◌, length};
ghost use Rattle.buffer.specs.Put.{Put};
ghost use Rattle.task_lines.specs.TaskLines.{task_start, task_line_text};

// What a task's line shows.
#[derive(Clone, Copy)]
pub struct TaskRow {
    pub number: u32,
    pub flag: u32,
    pub forced: u32,
    pub bound: u32,
    pub deadline: u32,
    pub load: u32,
}

// The start of a task's line: number, final flag, whether it was forced.
#[tactic(auto, using(crate::proofs::TaskLaws::start_length))]
fn put_task_start(out: &mut [u8], at: usize, number: u32, flag: u32, forced: u32) -> usize
    requires { at + length (task_start number flag forced) ≤ length out.old }
    ensures { Put out.old at (task_start number flag forced) result out.new }
{
    let a = page::put_field(out, at, b"task ", number);
    let b = page::put_either(out, a, flag, b" N", b" P");
    page::put_either(out, b, forced, b" given", b" forced")
}

// A task's line: after its start the bound, deadline and load.
#[tactic(auto, using(crate::proofs::TaskLaws::task_length))]
pub fn put_task(out: &mut [u8], at: usize, row: TaskRow) -> usize
    requires { at + length (task_line_text row) ≤ length out.old }
    ensures { Put out.old at (task_line_text row) result out.new }
{
    let a = put_task_start(out, at, row.number, row.flag, row.forced);
    let b = page::put_field(out, a, b" bound ", row.bound);
    let c = page::put_field(out, b, b" deadline ", row.deadline);
    let d = page::put_field(out, c, b" load ", row.load);
    page::put(out, d, b"\n")
}
