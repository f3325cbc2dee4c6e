// The bound of one task under slacks: W and E as document 02 has them, and the m largest differences under
// EDF. Without differences the search is that of edition 1; with them it goes on from where that one ends.
#![tactic(auto)]

ghost use Rattle.std.specs.Prelude.{◌≡◌, ◌+◌, ◌≤◌, ◌<◌};
ghost use Rattle.base.specs.Rows.{at};
ghost use Rattle.model.specs.Bound.{under, bound};
ghost use Rattle.flags.specs.Flags.{flag_in};
ghost use Rattle.rows.specs.Whole.{system_held};
ghost use Rattle.search.specs.Search.{least_q, Searchable};
ghost use Rattle.slack_caps.specs.Slacks.{SlackRows};
ghost use Rattle.slack_bound.specs.Under.{least_under};

use flags::Flags;
use rows::Rows;

// The least q with the differences, from the least without them.
fn past_differences(
    rows: &Rows,
    near: &[u32; 32],
    slacks: &[u32; 32],
    flags: Flags,
    k: usize,
    cap: &[u32; 32],
    ahead: u32,
    first: u32,
) -> u32
    requires { (k < rows.now.head.n)
        × (SlackRows rows.now.head.n rows.now.reach slacks.now near.now)
        × (Searchable rows.now.times.inverse rows.now.times.rest rows.now.times.cost near.now cap.now
        rows.now.head.n rows.now.head.cores ahead (at rows.now.reach k + 1))
        × (first ≡ least_q rows.now.times.rest rows.now.times.cost near.now cap.now rows.now.head.n
        rows.now.head.cores ahead (at rows.now.reach k + 1)) × (1 ≤ first) }
    ensures { result ≡ least_under
        (under (system_held rows.now)
        (at slacks.now)) (flag_in flags) k rows.now.times.rest rows.now.times.cost
        near.now cap.now ahead (at rows.now.reach k + 1) }
{
    let mut most = [0u32; 32];
    let mut wait = [0u32; 32];
    let all = differences::differences_of(
        rows.head,
        &rows.times.cost,
        &rows.reach,
        slacks,
        flags,
        k,
        &mut most,
        &mut wait,
    );
    if all == 0 {
        return first;
    }
    risen_search::least_risen(
        &rows.times,
        near,
        cap,
        &most,
        &wait,
        rows.head.n,
        rows.head.cores,
        ahead,
        first,
        rows.reach[k] + 1,
    )
}

// The bound of task k under these flags and slacks, and 0 where it has none. `near` holds D - C - S.
pub fn bound_under(rows: &Rows, near: &[u32; 32], slacks: &[u32; 32], flags: Flags, k: usize) -> u32
    requires { (k < rows.now.head.n)
        × (SlackRows rows.now.head.n rows.now.reach slacks.now near.now) }
    ensures { result ≡ bound
        (under (system_held rows.now)
        (at slacks.now)) (flag_in flags) k }
{
    let mut cap = [0u32; 32];
    let used = slack_caps::caps_under(rows, slacks, flags, k, &mut cap);
    let own = rows.times.cost[k];
    let ahead = bound::ahead_of(flags::flag_at(flags, k), own);
    let last = rows.reach[k] + 1;
    let m = rows.head.cores;
    let first = search::least_q(&rows.times, near, &cap, used, m, ahead, 0, last);
    if first == 0 {
        return 0;
    }
    let q = past_differences(rows, near, slacks, flags, k, &cap, ahead, first);
    if q == 0 {
        return 0;
    }
    q + (own - 1)
}
