// Forcing, over the rows of a table.
#![tactic(auto)]

ghost use Rattle.std.specs.Prelude.{◌≡◌, replicate, ◌≤◌};
ghost use Rattle.model.specs.Forcing.{lacks};
ghost use Rattle.flags.specs.Flags.{flag_in, held};
ghost use Rattle.rows.specs.Levels.{level_in};
ghost use Rattle.rows.specs.Whole.{system_held};
ghost use Rattle.forcing.specs.Forced.{deepen, below_of, Ended};

use flags::Flags;
use rows::{Head, Rows};

// Where forcing ends: the final flags, how many tests there were, and the number of the lowest task without
// a bound in the last of them, 0 for none. A number and no Option: `Ended` compares it with the model's
// `lowest`, which is a number too.
#[derive(Clone, Copy)]
pub struct Forced {
    pub flags: Flags,
    pub passes: u32,
    pub failing: u32,
}

// The greatest level so far, after one task more: its own counts where it is preemptive and fails.
fn deeper(below: u32, level: u32, flag: u32, failed: u32) -> u32
    ensures { result ≡ deepen below level (lacks flag failed) }
{
    if flag != 0 && failed == 0 {
        below.max(level)
    } else {
        below
    }
}

// Whose levels are smaller than this may see that the failing tasks became non-preemptive: under EDF all,
// under FP those above one of them.
fn below_of(head: Head, flags: Flags, failing: Flags) -> u32
    requires { head.n ≤ 32 }
    ensures { result ≡ below_of head.policy (level_in head.levels)
        (λ i. lacks (flag_in flags i) (flag_in failing i)) head.n }
{
    if head.policy == 0 {
        return 33;
    }
    let mut below: u32 = 0;
    for i in 0..head.n {
        let level = rows::level_at(head.levels, i);
        below = deeper(
            below,
            level,
            flags::flag_at(flags, i),
            flags::flag_at(failing, i),
        );
    }
    below
}

// Forcing: preemptive tasks are tested until each has a bound; after each test but the last, those that have
// none become non-preemptive at once. Then the others are tested. Where each task has a bound, it is in its
// place in the row.
pub fn force_rows(rows: &Rows, given: Flags, bounds: &mut [u32; 32]) -> Forced
    requires { (given ≡ held (flag_in given) rows.now.head.n) × (bounds.old ≡ replicate 32 0) }
    ensures { Ended (system_held rows.now)
        given bounds.new result }
{
    let n = rows.head.n;
    let mut flags = given;
    let mut below: u32 = 33;
    let mut passes: u32 = 1;
    // A loop: only a pass says whether there is a next one.
    loop {
        passes::search_on(rows, flags, below, bounds);
        let failing = flags::failing_of(n, bounds);
        let last = flags::last_lacking(flags, failing);
        if last == 0 {
            passes::search_rest(rows, flags, bounds);
            let left = flags::failing_of(n, bounds);
            return Forced {
                flags,
                passes,
                failing: flags::lowest_failing(left),
            };
        }
        below = below_of(rows.head, flags, failing);
        flags = flags::with_failing(flags, failing);
        passes += 1;
    }
}
