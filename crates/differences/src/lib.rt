// The differences that can count for task k, in rows: under EDF, with k and i non-preemptive, min(C_i - 1, q)
// - max(0, D_k - S_i). Task i puts up nothing before q is past wait_i = max(0, D_k - S_i), and no more than
// most_i = C_i - 1 - wait_i.
#![tactic(auto)]

ghost use Rattle.std.specs.Prelude.{◌≡◌, ◌+◌, ◌≤◌, ◌<◌, length, replicate};
ghost use Rattle.base.specs.Rows.{at};
ghost use Rattle.table.specs.Table.{policy_of};
ghost use Rattle.flags.specs.Flags.{flag_in};
ghost use Rattle.differences.specs.Differences.{most_for, Lists, Listed, Differable, Differs};

use flags::Flags;
use rows::Head;

// The most that a task can put up beside a non-preemptive k: a preemptive one nothing.
fn most_for(fi: u32, cost: u32, wait: u32) -> u32
    requires { 1 ≤ cost }
    ensures { result ≡ most_for fi cost wait }
{
    if fi != 0 {
        return 0;
    }
    (cost - 1).saturating_sub(wait)
}

// Fills the rows beside a non-preemptive k whose deadline is `due`, and says what they come to in all.
fn list_all(
    n: usize,
    cost: &[u32; 32],
    slacks: &[u32; 32],
    flags: Flags,
    due: u32,
    most: &mut [u32; 32],
    wait: &mut [u32; 32],
) -> u32
    requires { Lists n cost.now most.old wait.old }
    ensures { Listed (flag_in flags) (at cost.now) (at slacks.now) due n
        most.new wait.new result }
{
    let mut all: u32 = 0;
    for i in 0..n {
        let left = due.saturating_sub(slacks[i]);
        let top = most_for(flags::flag_at(flags, i), cost[i], left);
        wait[i] = left;
        most[i] = top;
        all += top;
    }
    all
}

// Fills the rows of task k's differences, and says what they come to at most: 0 where there are none.
pub fn differences_of(
    head: Head,
    cost: &[u32; 32],
    reach: &[u32; 32],
    slacks: &[u32; 32],
    flags: Flags,
    k: usize,
    most: &mut [u32; 32],
    wait: &mut [u32; 32],
) -> u32
    requires { (Differable head.n cost.now reach.now slacks.now) × (k < head.n)
        × (most.old ≡ replicate 32 0) × (length wait.old ≡ 32) }
    ensures { Differs (policy_of head.policy) (flag_in flags) (at cost.now)
        (at slacks.now) k (at reach.now k + at cost.now k) head.n
        most.new wait.new result }
{
    if head.policy != 0 {
        return 0;
    }
    if flags::flag_at(flags, k) != 0 {
        return 0;
    }
    list_all(head.n, cost, slacks, flags, reach[k] + cost[k], most, wait)
}
