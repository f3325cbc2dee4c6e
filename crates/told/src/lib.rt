// What the planner tells C and Rust of an answer: numbers in one order for all jobs, into a lent list
// (specs/Told.antt).
#![tactic(auto)]

ghost use Rattle.std.specs.Prelude.{◌≡◌, length};
ghost use Rattle.told.specs.Told.{fields, told_of, told_after};

use planner::{Answer, Stop};

// The numbers of an answer, in the order of the lent list; what is kept for later is 0.
#[tactic(auto, unfolding(crate::specs::Told::fields))]
pub fn fields_of(
    number: u32,
    place: u32,
    yes: u32,
    forced: u32,
    passes: u32,
    records: u32,
    word: u32,
    end: usize,
) -> [u32; 16]
    ensures { result ≡ fields number place yes forced passes records word end }
{
    [
        number,
        place,
        yes,
        forced,
        passes,
        records,
        0,
        0,
        word,
        (end % 4294967296) as u32,
        (end / 4294967296) as u32,
        0,
        0,
        0,
        0,
        0,
    ]
}

// An answer in numbers, with the number of records that are written and their flags in one word.
pub fn told_of(answer: Answer, records: u32, word: u32) -> [u32; 16]
    ensures { result ≡ told_of answer records word }
{
    match answer {
        Ok(v) => fields_of(0, 0, u32::from(v.yes), v.forced, v.passes, records, word, 0),
        Err(Stop { why, passes }) => fields_of(
            why.number, why.place, 0, 0, passes, records, word, 0,
        ),
    }
}

// As many of the numbers as there is room for go to the front of the caller's list, and the rest of it stays.
#[tactic(auto, unfolding(crate::specs::Told::told_after))]
pub fn put_told(out: &mut [u32], told: [u32; 16])
    requires { length told ≡ 16 }
    ensures { out.new ≡ told_after told out.old }
{
    let n = out.len().min(16);
    out[..n].copy_from_slice(&told[..n]);
}
