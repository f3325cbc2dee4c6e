// The planner's records as C and Rust have them: three numbers to a record.
#![tactic(auto)]

ghost use Rattle.std.specs.Prelude.{◌≡◌, ◌+◌, ◌*◌, ◌≤◌, ◌<◌, length};
ghost use Rattle.buffer.specs.Put.{Put};
ghost use Rattle.flat.specs.Flat.{record_numbers, flat_after, Fits};

use planner::{Done, Record};

// The three numbers of a record, at the place of record i.
pub fn put_record(out: &mut [u32], i: usize, r: Record)
    requires { (i < 32) × (3 * i + 3 ≤ length out.old) }
    ensures { Put out.old (3 * i) (record_numbers r) (3 * i + 3) out.new }
{
    out[3 * i] = r.flag;
    out[3 * i + 1] = r.forced;
    out[3 * i + 2] = r.bound;
}

// The records of an answer go to the front of the caller's numbers, and the rest of them stays.
pub fn put_records(out: &mut [u32], d: Done)
    requires { Fits d (length out.old) }
    ensures { out.new ≡ flat_after d out.old }
{
    for i in 0..d.count {
        put_record(out, i, d.recs[i]);
    }
}
