// The search for the least q at which the shares of all places and the m largest of numbers that rise with q
// sum to less than m × q. It goes on from a q below which the shares alone are too many.
#![tactic(auto)]

ghost use Rattle.std.specs.Prelude.{◌≡◌, ◌≤◌};
ghost use Rattle.search.specs.Search.{Searchable, NoneBelow};
ghost use Rattle.risen_search.specs.Search.{least_risen, SmallMost};

use window::Times;

// The least q from `first` to `last`, or 0: a number, as `least_risen` of the clause is.
pub fn least_risen(
    times: &Times,
    reach: &[u32; 32],
    cap: &[u32; 32],
    most: &[u32; 32],
    wait: &[u32; 32],
    n: usize,
    m: u32,
    ahead: u32,
    first: u32,
    last: u32,
) -> u32
    requires { (Searchable times.now.inverse times.now.rest times.now.cost reach.now cap.now n m ahead last)
        × (NoneBelow times.now.rest times.now.cost reach.now cap.now n m ahead last first) × (1 ≤ first)
        × (SmallMost most.now n) }
    ensures { result ≡ least_risen times.now.rest times.now.cost reach.now
        cap.now most.now wait.now n m ahead last }
{
    let mut row = [0u32; 32];
    let mut line = [0u32; 32];
    let mut q = first;
    // A loop: q jumps as far as the sum lets it, no range gives its values.
    loop {
        if last < q {
            break 0;
        }
        let shared = shares::evaluate(times, reach, cap, n, ahead, q, &mut row, &mut line);
        let whole = risen::add_risen(most, wait, n, m, q, shared, &mut row);
        let enough = m * q;
        if whole.sum < enough {
            break q;
        }
        q += chord::advance(&row, n, m, whole.sum - enough, whole.all, last + 1 - q);
    }
}
