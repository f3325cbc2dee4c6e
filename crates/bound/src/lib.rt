// The bound of one task, by one search for both policies and both kinds of task.
//
// The search counts in document 01's q, which has the same range for both kinds of task, 1 to D - C + 1, and
// the same bound, q + C - 1. Only the length differs: q itself, or C - 1 more for a preemptive task.
#![tactic(auto)]

ghost use Rattle.std.specs.Prelude.{◌≡◌, ◌-◌, ◌<◌};
ghost use Rattle.model.specs.Bound.{by_flag, bound};
ghost use Rattle.flags.specs.Flags.{flag_in};
ghost use Rattle.rows.specs.Whole.{system_held};
ghost use Rattle.bound.specs.Ahead.{NoneSooner};

use flags::Flags;
use rows::Rows;

// How much longer than q a length is: C - 1 for a preemptive task, nothing for a non-preemptive one.
pub fn ahead_of(flag: u32, cost: u32) -> u32
    requires { 0 < cost }
    ensures { result ≡ by_flag flag 0 (cost - 1) }
{
    if flag == 0 { 0 } else { cost - 1 }
}

// The bound of task k under these flags, and 0 where it has none. No q below `from` is enough; a `from` of 0
// says nothing.
pub fn bound_of(rows: &Rows, flags: Flags, k: usize, from: u32) -> u32
    requires { (k < rows.now.head.n)
        × (NoneSooner (system_held rows.now) (flag_in flags) k from) }
    ensures { result ≡ bound (system_held rows.now)
        (flag_in flags) k }
{
    let mut cap = [0u32; 32];
    let used = caps::caps_of(rows, flags, k, &mut cap);
    let own = rows.times.cost[k];
    let ahead = ahead_of(flags::flag_at(flags, k), own);
    let last = rows.reach[k] + 1;
    let q = search::least_q(
        &rows.times,
        &rows.reach,
        &cap,
        used,
        rows.head.cores,
        ahead,
        from,
        last,
    );
    if q == 0 {
        return 0;
    }
    q + (own - 1)
}
