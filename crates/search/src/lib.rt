// The search for the least q at which the shares of all places sum to less than m × q. Plain rows of numbers:
// it knows of no policy, flag, slack or edition.
//
// Place i has T_i = rest_i + cost_i, C_i = cost_i, and the share min(W_i, cap_i, q), with W_i its work in a
// window of q + ahead + reach_i quanta.
#![tactic(auto)]

ghost use Rattle.std.specs.Prelude.{◌≡◌, ◌+◌, ◌≤◌};
ghost use Rattle.chord.specs.Jump.{Jumped};
ghost use Rattle.search.specs.Search.{least_q, Searchable, NoneBelow, first_growth, Startable};

use window::Times;

// The first q to try. A share is at least min(C, cap, q), so from q = 0 on it grows by min(C, cap).
fn start(cost: &[u32; 32], cap: &[u32; 32], used: usize, m: u32, last: u32) -> u32
    requires { Startable cap.now used m last }
    ensures { Jumped (first_growth cost.now cap.now) used m 0 (last + 1) result }
{
    let mut row = [0u32; 32];
    let mut all: u32 = 0;
    for i in 0..used {
        let growth = cost[i].min(cap[i]);
        row[i] = growth;
        all += growth;
    }
    chord::advance(&row, used, m, 0, all, last + 1)
}

// The least q from `from` to `last`, or 0. From a q that fails the search goes on where the growth of the
// shares first leaves the line open.
fn seek(
    times: &Times,
    reach: &[u32; 32],
    cap: &[u32; 32],
    used: usize,
    m: u32,
    ahead: u32,
    from: u32,
    last: u32,
) -> u32
    requires { (Searchable times.now.inverse times.now.rest times.now.cost reach.now cap.now used m ahead
        last)
        × (NoneBelow times.now.rest times.now.cost reach.now cap.now used m ahead last from) × (1 ≤ from) }
    ensures { result ≡ least_q times.now.rest times.now.cost reach.now
        cap.now used m ahead last }
{
    let mut row = [0u32; 32];
    let mut line = [0u32; 32];
    let mut q = from;
    // A loop: q jumps up, no range gives its values.
    loop {
        if last < q {
            break 0;
        }
        let whole = shares::evaluate(times, reach, cap, used, ahead, q, &mut row, &mut line);
        let enough = m * q;
        if whole.sum < enough {
            break q;
        }
        q += chord::advance(&row, used, m, whole.sum - enough, whole.all, last + 1 - q);
    }
}

// The least q from 1 to `last`, or 0. The first `used` places count; no q below `from` is enough, and a
// `from` of 0 says nothing.
pub fn least_q(
    times: &Times,
    reach: &[u32; 32],
    cap: &[u32; 32],
    used: usize,
    m: u32,
    ahead: u32,
    from: u32,
    last: u32,
) -> u32
    requires { (Searchable times.now.inverse times.now.rest times.now.cost reach.now cap.now used m ahead
        last)
        × (NoneBelow times.now.rest times.now.cost reach.now cap.now used m ahead last from) }
    ensures { result ≡ least_q times.now.rest times.now.cost reach.now
        cap.now used m ahead last }
{
    if last == 0 {
        return 0;
    }
    // fewer shares than cores, each at most q
    if used < (m as usize) {
        return 1;
    }
    if from == 0 {
        let first = start(&times.cost, cap, used, m, last);
        return seek(times, reach, cap, used, m, ahead, first, last);
    }
    seek(times, reach, cap, used, m, ahead, from, last)
}
