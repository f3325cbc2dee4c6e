// The listing of a plan after forcing, into a buffer that the caller lends. Document 01, "The listing".
#![tactic(auto)]

ghost use Rattle.std.specs.Prelude.{◌+◌, ◌<◌, ◌≤◌, ◌≡◌, length};
ghost use Rattle.table.specs.Table.{LegalTable};
ghost use Rattle.buffer.specs.Put.{Put};
ghost use Rattle.listing.specs.Listing.{lines_to, line_at, accepted_text, answer_text, Ready, Listed};
ghost use Rattle.listing.specs.Sent.{sent_by};

use planner::{Done, Job, Record};
use table::Table;
use task_lines::TaskRow;

// The table of a text, and what forcing says of it.
#[derive(Clone, Copy)]
pub struct Sent {
    pub table: Table,
    pub done: Done,
}

// Every listing fits in so many bytes.
pub const LISTING_ROOM: usize = 2048;

// The tasks' lines, in table order.
fn put_tasks(out: &mut [u8], at: usize, t: Table, recs: [Record; 32]) -> usize
    requires { LegalTable t × (at + length (lines_to (line_at t recs) t.n) ≤ length out.old) }
    ensures { Put out.old at (lines_to (line_at t recs) t.n) result out.new }
{
    let mut place = at;
    for i in 0..t.n {
        let task = t.tasks[i];
        let rec = recs[i];
        let row = TaskRow {
            number: i as u32 + 1,
            flag: rec.flag,
            forced: rec.forced,
            bound: rec.bound,
            deadline: task.deadline,
            load: loads::task_load(task.cost, task.period),
        };
        place = task_lines::put_task(out, place, row);
    }
    place
}

// The listing of an accepted plan, from the place `at` on.
#[tactic(auto, using(crate::proofs::ListedLaws::accepted_length))]
pub fn put_accepted(
    out: &mut [u8],
    at: usize,
    t: Table,
    recs: [Record; 32],
    forced: u32,
    passes: u32,
) -> usize
    requires { LegalTable t × (at + length (accepted_text t recs forced passes) ≤ length out.old) }
    ensures { Put out.old at (accepted_text t recs forced passes) result out.new }
{
    let a = listing_lines::put_line_one(out, at, t.policy, t.cores, t.n as u32);
    let b = put_tasks(out, a, t, recs);
    let total = loads::total_load(t);
    listing_lines::put_last(out, b, total, forced, passes)
}

// What forcing says of a table.
pub fn put_done(out: &mut [u8], t: Table, done: Done) -> usize
    requires { Ready t done out.old }
    ensures { Put out.old 0 (answer_text t done.recs done.answer) result
        out.new }
{
    match done.answer {
        Ok(v) => put_accepted(out, 0, t, done.recs, v.forced, v.passes),
        Err(stop) => refusal_line::put_refusal(
            out,
            0,
            stop.why.number,
            stop.why.place,
            stop.passes,
        ),
    }
}

// A plan text that is read, and forced.
pub fn force_text(text: &[u8]) -> Sent
    ensures { result ≡ sent_by text.now }
{
    let reading = reader::read_plan(text);
    let table = reading.table;
    let done = match reading.answer {
        Ok(()) => planner::legal_done(table, Job::Force),
        Err(why) => planner::refused(why, 0),
    };
    Sent { table, done }
}

// The listing of a plan text after forcing. The answer is the number of bytes written, 0 for want of room.
pub fn write_listing(text: &[u8], out: &mut [u8]) -> usize
    ensures { Listed text.now out.old result out.new }
{
    if out.len() < LISTING_ROOM {
        return 0;
    }
    let Sent { table, done } = force_text(text);
    put_done(out, table, done)
}
