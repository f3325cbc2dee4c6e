// Searches of many tasks over the rows of a table, each into a lent row of bounds: the test of all; one pass
// of forcing, over preemptive tasks; and, where forcing ends, the non-preemptive tasks.
#![tactic(auto)]

ghost use Rattle.std.specs.Prelude.{◌≡◌, ◌≤◌, ◌<◌, replicate};
ghost use Rattle.base.specs.Rows.{row};
ghost use Rattle.model.specs.Bound.{bound};
ghost use Rattle.flags.specs.Flags.{flag_in};
ghost use Rattle.rows.specs.Levels.{level_in};
ghost use Rattle.rows.specs.Whole.{system_held};
ghost use Rattle.passes.specs.Passes.{q_of, sought_by, Floors, Onward, Preempted, Last};

use flags::Flags;
use rows::{Levels, Rows};

// The test: the bound of each task under these flags.
pub fn test_rows(rows: &Rows, flags: Flags, bounds: &mut [u32; 32])
    requires { (bounds.old ≡ replicate 32 0) }
    ensures { bounds.new ≡ row 0 (bound (system_held rows.now) (flag_in flags)) rows.now.head.n }
{
    for k in 0..rows.head.n {
        bounds[k] = bound::bound_of(rows, flags, k, 0);
    }
}

// The q of a bound, and 0 for none.
fn q_of(bound: u32, cost: u32) -> u32
    requires { 1 ≤ cost }
    ensures { result ≡ q_of bound cost }
{
    bound.saturating_sub(cost - 1)
}

// Whether a pass searches task k: it is preemptive, and its level is above `below`.
fn sought(levels: Levels, flags: Flags, k: usize, below: u32) -> bool
    requires { k < 32 }
    ensures { result ≡ sought_by (flag_in flags k) (level_in levels k) below }
{
    flags::flag_at(flags, k) != 0 && rows::level_at(levels, k) < below
}

// One pass: each preemptive task with a level smaller than `below` is searched on from where it stands.
pub fn search_on(rows: &Rows, flags: Flags, below: u32, bounds: &mut [u32; 32])
    requires { (Floors (system_held rows.now) (flag_in flags) bounds.old) }
    ensures { Onward (system_held rows.now)
        (flag_in flags) (level_in rows.now.head.levels) below rows.now.head.n bounds.old bounds.new }
{
    for k in 0..rows.head.n {
        if sought(rows.head.levels, flags, k, below) {
            let from = q_of(bounds[k], rows.times.cost[k]);
            bounds[k] = bound::bound_of(rows, flags, k, from);
        }
    }
}

// Where each preemptive task has its bound: the others, up to the first that has none, which leaves a 0 in
// its place. Where there is no 0, each task has its bound in the row.
pub fn search_rest(rows: &Rows, flags: Flags, bounds: &mut [u32; 32])
    requires { (Preempted (system_held rows.now) (flag_in flags) bounds.old) }
    ensures { Last (system_held rows.now)
        (flag_in flags) bounds.new }
{
    for k in 0..rows.head.n {
        if flags::flag_at(flags, k) == 0 {
            let found = bound::bound_of(rows, flags, k, 0);
            bounds[k] = found;
            if found == 0 {
                return;
            }
        }
    }
}
