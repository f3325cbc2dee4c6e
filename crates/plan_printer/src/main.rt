// The plan printer: a plan from standard input; its listing after forcing, or its refusal's line, to standard
// output.
//
// It holds the first 1,004 bytes of its input. The longest plan has 1,003, so a longer text is refused, and
// by those bytes alone: every due line of at most 32 tasks lies within the first 1,003, and that a byte
// follows the last line is seen from the 1,004th at the latest (`listing_settled`, in the crate listing).
// A failed read or write is told on standard error; a failed read gives no listing at all.
#![tactic(auto)]

ghost use Rattle.std.specs.Prelude.{◌≤◌, IfOk, length, replicate};
ghost use Rattle.listing.specs.Listing.{Ready};

use listing::Sent;
use std::io::{Error, Read};

// Reads until the buffer is full, the input ends or a read fails, and says how many bytes were read.
fn read_text<R: Read>(from: &mut R, text: &mut [u8]) -> Result<usize, Error>
    ensures { IfOk result (λ n. n ≤ length text.new) }
{
    let mut count = 0;
    // A while: count goes up by what each read gives.
    while count < text.len() {
        let more = from.read(&mut text[count..])?;
        if more == 0 {
            break;
        }
        count += more;
    }
    Ok(count)
}

// Writes until all is written or a write fails, and says whether all was.
fn write_text(fd: i32, text: &[u8]) -> bool {
    io::write_all(fd, text)
}

// The input is read, and forced. The text is gone when the listing is written.
fn hear<R: Read>(from: &mut R) -> Result<Sent, Error>
    ensures { IfOk result (λ s. Ready s.table s.done (replicate 2048 0)) }
{
    let mut text = [0u8; 1004];
    let n = read_text(from, &mut text)?;
    Ok(listing::force_text(&text[..n]))
}

// The listing of what was sent.
fn print(sent: Sent)
    requires { Ready sent.table sent.done (replicate 2048 0) }
{
    let mut out = [0u8; 2048];
    let n = listing::put_done(&mut out, sent.table, sent.done);
    let written = write_text(1, &out[..n]);
    if !written {
        write_text(2, b"plan_printer: standard output could not be written\n");
    }
}

fn main(rt: HostRuntime) {
    let mut from = rt.stdin();
    match hear(&mut from) {
        Ok(sent) => print(sent),
        Err(_) => {
            write_text(2, b"plan_printer: standard input could not be read\n");
        }
    }
}
