// The caps of task k under slacks. E(k,i) with slack is the work in a window of max(0, D_k - S_i); the
// candidates under FP do not depend on slacks. What the caps leave out are the differences under EDF.
#![tactic(auto)]

ghost use Rattle.std.specs.Prelude.{◌≡◌, ℕ, ◌≤◌, ◌<◌, length, replicate};
ghost use Rattle.base.specs.Rows.{at};
ghost use Rattle.model.specs.Bound.{under};
ghost use Rattle.flags.specs.Flags.{flag_in};
ghost use Rattle.rows.specs.Whole.{system_held};
ghost use Rattle.caps.specs.Caps.{cap_in};
ghost use Rattle.slack_caps.specs.Slacks.{SlacksFit, SlackCaps};

use flags::Flags;
use rows::Rows;

// Adds the caps of what is summed, and takes task k itself out.
fn add_caps_under(rows: &Rows, slacks: &[u32; 32], flags: Flags, k: usize, cap: &mut [u32; 32])
    requires { (k < rows.now.head.n)
        × (SlacksFit rows.now.head.n rows.now.reach slacks.now) × (length cap.old ≡ 32)
        × ((i : ℕ) → i < rows.now.head.n → at cap.old i ≤ 1000000) }
    ensures { (i : ℕ) → i < rows.now.head.n → at cap.new i
        ≡ cap_in (under (system_held rows.now)
        (at slacks.now)) (flag_in flags) k (at cap.old) i }
{
    // The head by value: what is written in the loop is then seen to leave it.
    let head = rows.head;
    let fk = flags::flag_at(flags, k);
    let due = rows.reach[k] + rows.times.cost[k];
    for i in 0..head.n {
        let fi = flags::flag_at(flags, i);
        let high = rows::higher(head.levels, k, i);
        let left = window::past(due, slacks[i]);
        let most = cap_for::cap_for(
            head.policy,
            fk,
            fi,
            high,
            rows.times.inverse[i],
            rows.times.rest[i],
            rows.times.cost[i],
            left,
        );
        cap[i] += most;
    }
    cap[k] = 0;
}

// Fills the caps of task k under these flags and slacks, and says how many of them count.
pub fn caps_under(
    rows: &Rows,
    slacks: &[u32; 32],
    flags: Flags,
    k: usize,
    cap: &mut [u32; 32],
) -> usize
    requires { (k < rows.now.head.n)
        × (SlacksFit rows.now.head.n rows.now.reach slacks.now) × (cap.old ≡ replicate 32 0) }
    ensures { SlackCaps
        (under (system_held rows.now)
        (at slacks.now)) (flag_in flags) k cap.new result }
{
    blocking::keep_blocking(rows.head, &rows.times.cost, flags, k, cap);
    add_caps_under(rows, slacks, flags, k, cap);
    caps::used_of(cap, rows.head.n)
}
