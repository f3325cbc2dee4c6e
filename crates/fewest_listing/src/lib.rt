// The listing with the fewest cores: their number, and then the listing that forcing with so many gives. It
// goes into a buffer that the caller lends. Document 02, Wish 5.
#![tactic(auto)]

ghost use Rattle.std.specs.Prelude.{◌≤◌, length};
ghost use Rattle.buffer.specs.Put.{Put};
ghost use Rattle.fewest_listing.specs.FewestListing.{fewest_line, text_of, Ready, FewestListed};

use fewest::Fewest;
use table::Table;

// Every listing fits in so many bytes, with the line above it.
pub const FEWEST_ROOM: usize = 2064;

// The line above the listing: the number of cores.
fn put_cores(out: &mut [u8], cores: u32) -> usize
    requires { length (fewest_line cores) ≤ length out.old }
    ensures { Put out.old 0 (fewest_line cores) result out.new }
{
    let a = page::put_field(out, 0, b"fewest ", cores);
    page::put(out, a, b"\n")
}

// What was found for a legal table: the cores and the listing of the table on them, or the refusal.
fn put_found(out: &mut [u8], t: Table, f: Fewest) -> usize
    requires { Ready t f out.old }
    ensures { Put out.old 0 (text_of t f) result out.new }
{
    let Fewest { done, cores } = f;
    match done.answer {
        Ok(v) => {
            let a = put_cores(out, cores);
            let other = Table { cores, ..t };
            listing::put_accepted(out, a, other, done.recs, v.forced, v.passes)
        }
        Err(stop) => refusal_line::put_refusal(
            out,
            0,
            stop.why.number,
            stop.why.place,
            stop.passes,
        ),
    }
}

// The listing of a plan text on the fewest cores. The answer is the number of bytes written, 0 for want of
// room.
pub fn write_fewest(text: &[u8], out: &mut [u8]) -> usize
    ensures { FewestListed text.now out.old result out.new }
{
    if out.len() < FEWEST_ROOM {
        return 0;
    }
    let reading = reader::read_plan(text);
    let table = reading.table;
    match reading.answer {
        Ok(()) => put_found(out, table, fewest::legal_fewest(table)),
        Err(why) => refusal_line::put_refusal(out, 0, why.number, why.place, 0),
    }
}
