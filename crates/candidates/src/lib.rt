// The candidates of a non-preemptive task under FP, apart from the length: C - 1 of each lower non-preemptive
// task.
#![tactic(auto)]

ghost use Rattle.std.specs.Prelude.{◌≡◌, ℕ, ◌≤◌, ◌<◌, length};
ghost use Rattle.base.specs.Rows.{at};
ghost use Rattle.model.specs.Bound.{FP};
ghost use Rattle.flags.specs.Flags.{flag_in};
ghost use Rattle.rows.specs.Levels.{higher_at};
ghost use Rattle.candidates.specs.Candidates.{block_for, candidate_in};

use flags::Flags;
use rows::Levels;

// C - 1 of a lower non-preemptive task, and 0 of any other.
#[tactic(auto, using(crate::proofs::Lines::block_lines))]
fn block_for(fi: u32, higher: bool, cost: u32) -> u32
    requires { 1 ≤ cost }
    ensures { result ≡ block_for FP 0 fi higher cost }
{
    if fi != 0 {
        return 0;
    }
    if higher { 0 } else { cost - 1 }
}

// The candidates of a non-preemptive task k under FP.
pub fn candidates(
    n: usize,
    levels: Levels,
    cost: &[u32; 32],
    flags: Flags,
    k: usize,
    x: &mut [u32; 32],
)
    requires { (n ≤ 32) × (k < n) × ((i : ℕ) → i < n → 1 ≤ at cost.now i) × (length x.old ≡ 32) }
    ensures { (i : ℕ) → i < n
        → at x.new i
        ≡ candidate_in (higher_at levels) (at cost.now) (flag_in flags) k i }
{
    for i in 0..n {
        let fi = flags::flag_at(flags, i);
        x[i] = block_for(fi, rows::higher(levels, k, i), cost[i]);
    }
    x[k] = 0;
}
