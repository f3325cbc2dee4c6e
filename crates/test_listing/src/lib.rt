// The listing of a plan as sent, by the test: each task with its bound or none, and yes or no. It goes into a
// buffer that the caller lends.
#![tactic(auto)]

ghost use Rattle.std.specs.Prelude.{◌+◌, ◌≤◌, length};
ghost use Rattle.table.specs.Table.{LegalTable};
ghost use Rattle.buffer.specs.Put.{Put};
ghost use Rattle.listing.specs.Listing.{lines_to};
ghost use Rattle.test_listing.specs.TestListing.{bound_part, test_task, test_last, test_line_at};
ghost use Rattle.test_listing.specs.TestListing.{test_text, test_by, Ready, TestListed};

use planner::{Done, Job, Record};
use table::Table;

// What a task's line shows.
#[derive(Clone, Copy)]
struct TestRow {
    number: u32,
    flag: u32,
    bound: u32,
    deadline: u32,
    load: u32,
}

// The bound, or none.
fn put_bound(out: &mut [u8], at: usize, bound: u32) -> usize
    requires { at + length (bound_part bound) ≤ length out.old }
    ensures { Put out.old at (bound_part bound) result out.new }
{
    if bound == 0 {
        page::put(out, at, b" none")
    } else {
        page::put_field(out, at, b" bound ", bound)
    }
}

// A task's line: number, flag, bound or none, deadline, load.
#[tactic(auto, using(crate::proofs::LineLaws::task_length))]
fn put_row(out: &mut [u8], at: usize, row: TestRow) -> usize
    requires { at + length (test_task row) ≤ length out.old }
    ensures { Put out.old at (test_task row) result out.new }
{
    let a = page::put_field(out, at, b"task ", row.number);
    let b = page::put_either(out, a, row.flag, b" N", b" P");
    let c = put_bound(out, b, row.bound);
    let d = page::put_field(out, c, b" deadline ", row.deadline);
    let e = page::put_field(out, d, b" load ", row.load);
    page::put(out, e, b"\n")
}

// The tasks' lines, in table order.
fn put_rows(out: &mut [u8], at: usize, t: Table, recs: [Record; 32]) -> usize
    requires { LegalTable t × (at + length (lines_to (test_line_at t recs) t.n) ≤ length out.old) }
    ensures { Put out.old at (lines_to (test_line_at t recs) t.n) result out.new }
{
    let mut place = at;
    for i in 0..t.n {
        let task = t.tasks[i];
        let rec = recs[i];
        let row = TestRow {
            number: i as u32 + 1,
            flag: rec.flag,
            bound: rec.bound,
            deadline: task.deadline,
            load: loads::task_load(task.cost, task.period),
        };
        place = put_row(out, place, row);
    }
    place
}

// The last line: total load, yes or no.
#[tactic(auto, using(crate::proofs::LineLaws::last_length))]
fn put_last(out: &mut [u8], at: usize, total: u32, says: u32) -> usize
    requires { at + length (test_last total says) ≤ length out.old }
    ensures { Put out.old at (test_last total says) result out.new }
{
    let a = page::put_field(out, at, b"total load ", total);
    let b = page::put_either(out, a, says, b" answer no", b" answer yes");
    page::put(out, b, b"\n")
}

// The listing of a table that was tested.
#[tactic(auto, using(crate::proofs::ListedLaws::tested_length))]
fn put_tested(out: &mut [u8], t: Table, recs: [Record; 32], says: u32) -> usize
    requires { LegalTable t × (length (test_text t recs says) ≤ length out.old) }
    ensures { Put out.old 0 (test_text t recs says) result out.new }
{
    let a = listing_lines::put_line_one(out, 0, t.policy, t.cores, t.n as u32);
    let b = put_rows(out, a, t, recs);
    let total = loads::total_load(t);
    put_last(out, b, total, says)
}

// What the test says of a legal table.
pub fn put_done(out: &mut [u8], t: Table, done: Done) -> usize
    requires { Ready t done out.old }
    ensures { Put out.old 0 (test_by t done.recs done.answer) result out.new }
{
    match done.answer {
        Ok(v) => put_tested(out, t, done.recs, u32::from(v.yes)),
        Err(stop) => refusal_line::put_refusal(
            out,
            0,
            stop.why.number,
            stop.why.place,
            stop.passes,
        ),
    }
}

// The listing of a plan text as sent. The answer is the number of bytes written, 0 for want of room.
pub fn write_test(text: &[u8], out: &mut [u8]) -> usize
    ensures { TestListed text.now out.old result out.new }
{
    if out.len() < listing::LISTING_ROOM {
        return 0;
    }
    let reading = reader::read_plan(text);
    let table = reading.table;
    match reading.answer {
        Ok(()) => put_done(out, table, planner::legal_done(table, Job::Test)),
        Err(why) => refusal_line::put_refusal(out, 0, why.number, why.place, 0),
    }
}
