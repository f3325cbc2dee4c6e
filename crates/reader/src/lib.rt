// Reading a plan: its front, and nothing after it.
#![tactic(auto)]

ghost use Rattle.std.specs.Prelude.{◌≡◌};
ghost use Rattle.lines.specs.Reads.{refused, read_of};

use lines::{Front, NO_TABLE, Reading};
use table::Refusal;

fn refused(number: u32, place: u32) -> Reading
    ensures { result ≡ refused number place }
{
    Reading {
        answer: Err(Refusal { number, place }),
        table: NO_TABLE,
    }
}

// Every byte string is answered: accepted with its table, or the first fault.
pub fn read_plan(text: &[u8]) -> Reading
    ensures { result ≡ read_of text.now }
{
    let Front { answer, table, end } = front_reader::read_front(text);
    match answer {
        Ok(()) if end < text.len() => refused(12, table.n as u32 + 2),
        _ => Reading { answer, table },
    }
}
