// The slacks after one round, in two rows: S, and what it leaves of D - C.
#![tactic(auto)]

ghost use Rattle.std.specs.Prelude.{◌≡◌, ◌≤◌, ◌<◌};
ghost use Rattle.base.specs.Rows.{at, row};
ghost use Rattle.rounds.specs.Rounds.{slack_after};
ghost use Rattle.round_slacks.specs.Moves.{Ends, FitRows, only_after, Moved};

// A task's slack after a round: D - bound where it has a bound, else as it was.
fn slack_after(deadline: u32, slack: u32, bound: u32) -> u32
    requires { bound ≤ deadline }
    ensures { result ≡ slack_after deadline slack bound }
{
    if bound == 0 { slack } else { deadline - bound }
}

// The number of the one task whose slack changed, 0 for none and 33 where more did: after task k as well.
// Numbers and no enum: `move_slacks` gives one out, and its clause `Moved` says it as a number.
fn only_after(only: usize, change: u32, k: usize) -> usize
    requires { k < 32 }
    ensures { result ≡ only_after only change k }
{
    if change == 0 {
        return only;
    }
    if only == 0 { k + 1 } else { 33 }
}

// The slacks after a round, and which of them changed, as `only_after` says it.
pub fn move_slacks(
    n: usize,
    cost: &[u32; 32],
    reach: &[u32; 32],
    bounds: &[u32; 32],
    slacks: &mut [u32; 32],
    near: &mut [u32; 32],
) -> usize
    requires { (n ≤ 32) × (FitRows n cost.now reach.now bounds.now slacks.old)
        × (Ends n slacks.old) × (Ends n near.old) }
    ensures { Moved n cost.now reach.now bounds.now
        slacks.old slacks.new near.new result }
{
    let mut moved: usize = 0;
    for k in 0..n {
        let before = slacks[k];
        let after = slack_after(reach[k] + cost[k], before, bounds[k]);
        slacks[k] = after;
        near[k] = reach[k] - after;
        moved = only_after(moved, flags::change(before, after), k);
    }
    moved
}

// What no slack leaves of D - C: all of it.
pub fn start_near(n: usize, reach: &[u32; 32]) -> [u32; 32]
    requires { n ≤ 32 }
    ensures { result ≡ row 0 (at reach.now) n }
{
    let mut near = [0u32; 32];
    near[..n].copy_from_slice(&reach[..n]);
    near
}
