// The candidates of task k for the m largest, kept once for every length. Under EDF, and beside a preemptive
// task, there are none; under FP the m largest of min(W, C - 1, q) are those with the largest C, at every q.
#![tactic(auto)]

ghost use Rattle.std.specs.Prelude.{◌≡◌, ℕ, ◌≤◌, ◌<◌, length, replicate};
ghost use Rattle.base.specs.Rows.{at};
ghost use Rattle.table.specs.Table.{policy_of};
ghost use Rattle.flags.specs.Flags.{flag_in};
ghost use Rattle.rows.specs.Levels.{higher_at};
ghost use Rattle.largest.specs.Largest.{Largest};
ghost use Rattle.blocking.specs.Blocking.{block_in};

use flags::Flags;
use rows::Head;

// Keeps the candidates of task k that count, the m largest, as they are at every length.
pub fn keep_blocking(head: Head, cost: &[u32; 32], flags: Flags, k: usize, cap: &mut [u32; 32])
    requires { (head.n ≤ 32) × (k < head.n) × ((i : ℕ) → i < head.n → 1 ≤ at cost.now i)
        × (cap.old ≡ replicate 32 0) }
    ensures { (length cap.new ≡ 32)
        × (Largest (block_in (policy_of head.policy) (higher_at head.levels) (at cost.now)
        (flag_in flags) k) (at cap.new) head.cores head.n) }
{
    if head.policy == 0 {
        return;
    }
    if flags::flag_at(flags, k) != 0 {
        return;
    }
    let n = head.n;
    let mut x = [0u32; 32];
    candidates::candidates(n, head.levels, cost, flags, k, &mut x);
    largest::keep_largest(&x, head.cores, n, cap);
}
