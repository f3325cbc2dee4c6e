// The listings under edition 2, into a buffer that the caller lends: those of edition 1, and the last line
// gains the round count of the last test. Document 02, Wish 4.
#![tactic(auto)]

ghost use Rattle.std.specs.Prelude.{◌+◌, ◌-◌, ◌<◌, ◌≤◌, length};
ghost use Rattle.buffer.specs.Put.{Put};
ghost use Rattle.listing.specs.Listing.{ListedAs, answer_text};
ghost use Rattle.test_listing.specs.TestListing.{test_by};
ghost use Rattle.round_listing.specs.RoundListing.{rounds_end, Ready, forced_text, tested_text};
ghost use Rattle.round_listing.specs.RoundListing.{listing_of2, test_of2};

use edition_2::Rounded;
use planner::Job;
use table::Table;

// The round count, in place of the 0A that stands before the place `end`; the line ends after it.
fn put_rounds(out: &mut [u8], end: usize, rounds: u32) -> usize
    requires { (0 < end) × (end - 1 + length (rounds_end rounds) ≤ length out.old) }
    ensures { Put out.old (end - 1) (rounds_end rounds) result out.new }
{
    let a = page::put_field(out, end - 1, b" rounds ", rounds);
    page::put(out, a, b"\n")
}

// What forcing says of a legal table.
fn put_forced(out: &mut [u8], t: Table, d: Rounded) -> usize
    requires { Ready t d.done.answer (answer_text t d.done.recs d.done.answer) d.rounds
        out.old }
    ensures { Put out.old 0 (forced_text t d) result out.new }
{
    let end = listing::put_done(out, t, d.done);
    match d.done.answer {
        Ok(_) => put_rounds(out, end, d.rounds),
        Err(_) => end,
    }
}

// What the test says of a legal table.
fn put_tested(out: &mut [u8], t: Table, d: Rounded) -> usize
    requires { Ready t d.done.answer (test_by t d.done.recs d.done.answer) d.rounds
        out.old }
    ensures { Put out.old 0 (tested_text t d) result out.new }
{
    let end = test_listing::put_done(out, t, d.done);
    match d.done.answer {
        Ok(_) => put_rounds(out, end, d.rounds),
        Err(_) => end,
    }
}

// The listing of a plan text after forcing. The answer is the number of bytes written, 0 for want of room.
pub fn write_listing_2(text: &[u8], out: &mut [u8]) -> usize
    ensures { ListedAs (listing_of2 text.now) out.old result out.new }
{
    if out.len() < listing::LISTING_ROOM {
        return 0;
    }
    let reading = reader::read_plan(text);
    let table = reading.table;
    match reading.answer {
        Ok(()) => { put_forced(out, table, edition_2::legal_second(table, Job::Force)) }
        Err(why) => refusal_line::put_refusal(out, 0, why.number, why.place, 0),
    }
}

// The listing of a plan text as sent, by the test. The answer is as above.
pub fn write_test_2(text: &[u8], out: &mut [u8]) -> usize
    ensures { ListedAs (test_of2 text.now) out.old result out.new }
{
    if out.len() < listing::LISTING_ROOM {
        return 0;
    }
    let reading = reader::read_plan(text);
    let table = reading.table;
    match reading.answer {
        Ok(()) => { put_tested(out, table, edition_2::legal_second(table, Job::Test)) }
        Err(why) => refusal_line::put_refusal(out, 0, why.number, why.place, 0),
    }
}
