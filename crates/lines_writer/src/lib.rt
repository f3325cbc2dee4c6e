// The task lines of a plan, each written into the part of the buffer that starts after the last line written:
// document 02, Wish 1. They hold no level: whether a table's levels are its places, Wish 8.
#![tactic(auto)]

ghost use Rattle.std.specs.Prelude.{◌≡◌, ◌+◌, ◌≤◌, length, take};
ghost use Rattle.base.specs.Choice.{some_of};
ghost use Rattle.table.specs.Table.{LegalTask, LegalTable};
ghost use Rattle.buffer.specs.Put.{Put};
ghost use Rattle.lines.specs.Form.{form1};
ghost use Rattle.lines.specs.Writes.{task_bytes, tasks_text, unplaced};

use table::{Table, Task};

// The frame of a task line without its check: its first 14 bytes.
fn task_frame(t: Task) -> [u8; 16]
    requires { LegalTask t }
    ensures { take 14 result ≡ task_bytes form1 t }
{
    let Task {
        flag,
        period,
        cost,
        deadline,
        ..
    } = t;
    let [p0, p1, p2, p3] = period.to_be_bytes();
    let [c0, c1, c2, c3] = cost.to_be_bytes();
    let [d0, d1, d2, d3] = deadline.to_be_bytes();
    [
        2, flag as u8, p0, p1, p2, p3, c0, c1, c2, c3, d0, d1, d2, d3, 0, 0,
    ]
}

// The number of the first task whose level is not its place.
pub fn unplaced(t: Table) -> Option<u32>
    requires { LegalTable t }
    ensures { result ≡ some_of (unplaced t) }
{
    for i in 0..t.n {
        let place = i as u32 + 1;
        if t.tasks[i].level != place {
            return Some(place);
        }
    }
    None
}

// The task lines, from the place `at` on; the answer is the place after them.
pub fn put_tasks(out: &mut [u8], at: usize, t: Table) -> usize
    requires { LegalTable t × (at + length (tasks_text form1 t.tasks t.n) ≤ length out.old) }
    ensures { Put out.old at (tasks_text form1 t.tasks t.n) result out.new }
{
    let mut next = at;
    for &task in &t.tasks[..t.n] {
        let frame = task_frame(task);
        next += frame_writer::put_line(&mut out[next..], frame, 14);
    }
    next
}
