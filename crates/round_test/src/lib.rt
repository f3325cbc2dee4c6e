// The test of edition 2 over the rows of a table: rounds until no slack changes. Slacks stand in two rows, S
// and what it leaves of D - C.
#![tactic(auto)]

ghost use Rattle.std.specs.Prelude.{◌≡◌};
ghost use Rattle.base.specs.Rows.{at, row};
ghost use Rattle.model.specs.Bound.{under, bound};
ghost use Rattle.flags.specs.Flags.{flag_in};
ghost use Rattle.rows.specs.Whole.{system_held};
ghost use Rattle.slack_caps.specs.Slacks.{SlackRows};
ghost use Rattle.round_slacks.specs.Moves.{Ends};
ghost use Rattle.round_test.specs.Round.{TestedIn, Spared};

use flags::Flags;
use rows::Rows;

// All bounds of a round, from the slacks at its start. The task numbered `spared`, if there is one, has its
// bound already: no slack but its own has changed since, and its own is not read.
fn bounds_in(
    rows: &Rows,
    near: &[u32; 32],
    slacks: &[u32; 32],
    flags: Flags,
    spared: usize,
    bounds: &mut [u32; 32],
)
    requires { (SlackRows rows.now.head.n rows.now.reach slacks.now near.now)
        × (Ends rows.now.head.n bounds.old)
        × (Spared (under (system_held rows.now) (at slacks.now)) (flag_in flags) bounds.old spared) }
    ensures { bounds.new ≡ row 0 (bound (under (system_held rows.now) (at slacks.now)) (flag_in flags))
        rows.now.head.n }
{
    for k in 0..rows.head.n {
        if k + 1 != spared {
            bounds[k] = slack_bound::bound_under(rows, near, slacks, flags, k);
        }
    }
}

// The test: rounds until no slack changes. The bounds of the last round go to the row; the answer is how many
// rounds there were.
pub fn test_rounds(rows: &Rows, flags: Flags, bounds: &mut [u32; 32]) -> u32
    requires { (Ends rows.now.head.n bounds.old) }
    ensures { TestedIn (system_held rows.now)
        flags bounds.new result }
{
    let mut slacks = [0u32; 32];
    let mut near = round_slacks::start_near(rows.head.n, &rows.reach);
    let mut moved: usize = 0;
    let mut rounds: u32 = 1;
    // A loop: only the slacks after a round say whether there is a next one.
    loop {
        bounds_in(rows, &near, &slacks, flags, moved, bounds);
        moved = round_slacks::move_slacks(
            rows.head.n,
            &rows.times.cost,
            &rows.reach,
            bounds,
            &mut slacks,
            &mut near,
        );
        if moved == 0 {
            return rounds;
        }
        rounds += 1;
    }
}
