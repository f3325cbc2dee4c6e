// What limits the share of each other task in task k's sum, apart from q: one number a task, good for every
// length. Candidates are no case of their own: EDF has none, and under FP the m that count are shares too,
// with the cap C - 1.
#![tactic(auto)]

ghost use Rattle.std.specs.Prelude.{◌≡◌, ℕ, ◌≤◌, ◌<◌, length, replicate};
ghost use Rattle.base.specs.Rows.{at};
ghost use Rattle.flags.specs.Flags.{flag_in};
ghost use Rattle.rows.specs.Whole.{system_held};
ghost use Rattle.caps.specs.Caps.{cap_in, Used, Caps};

use flags::Flags;
use rows::Rows;

// Adds the caps of what is summed, and takes task k itself out.
fn add_caps(rows: &Rows, flags: Flags, k: usize, cap: &mut [u32; 32])
    requires { (k < rows.now.head.n)
        × (length cap.old ≡ 32) × ((i : ℕ) → i < rows.now.head.n → at cap.old i ≤ 1000000) }
    ensures { (i : ℕ) → i < rows.now.head.n → at cap.new i
        ≡ cap_in (system_held rows.now) (flag_in flags) k
        (at cap.old) i }
{
    let fk = flags::flag_at(flags, k);
    let due = rows.reach[k] + rows.times.cost[k];
    for i in 0..rows.head.n {
        let fi = flags::flag_at(flags, i);
        let high = rows::higher(rows.head.levels, k, i);
        let most = cap_for::cap_for(
            rows.head.policy,
            fk,
            fi,
            high,
            rows.times.inverse[i],
            rows.times.rest[i],
            rows.times.cost[i],
            due,
        );
        cap[i] += most;
    }
    cap[k] = 0;
}

// How many places count: all past the last cap above 0 are left out.
pub fn used_of(cap: &[u32; 32], n: usize) -> usize
    requires { n ≤ 32 }
    ensures { Used (at cap.now) n result }
{
    for i in (0..n).rev() {
        if cap[i] != 0 {
            return i + 1;
        }
    }
    0
}

// Fills the caps of task k under these flags, and says how many of them count.
pub fn caps_of(rows: &Rows, flags: Flags, k: usize, cap: &mut [u32; 32]) -> usize
    requires { (k < rows.now.head.n)
        × (cap.old ≡ replicate 32 0) }
    ensures { Caps (system_held rows.now)
        (flag_in flags) k cap.new result }
{
    blocking::keep_blocking(rows.head, &rows.times.cost, flags, k, cap);
    add_caps(rows, flags, k, cap);
    used_of(cap, rows.head.n)
}
