// Forcing of edition 2, over the rows of a table.
#![tactic(auto)]

ghost use Rattle.std.specs.Prelude.{◌≡◌, ◌+◌, ◌<◌, ◌≤◌, MatchOption};
ghost use Rattle.flags.specs.Flags.{flag_in, held};
ghost use Rattle.rows.specs.Whole.{system_held};
ghost use Rattle.round_slacks.specs.Moves.{Ends};
ghost use Rattle.round_force.specs.Forced2.{first_in, alone, to_force, Ended2};

use flags::Flags;
use rows::Rows;

// Where forcing ends: the final flags, how many tests there were, how many rounds the last of them had, and
// the number of the lowest task without a bound in it, 0 for none. A number and no Option: `Ended2` compares
// it with the mathematics' `place15`, which is a number too.
#[derive(Clone, Copy)]
pub struct Forced2 {
    pub flags: Flags,
    pub passes: u32,
    pub rounds: u32,
    pub failing: u32,
}

// The place of the lowest-numbered preemptive task, if there is one.
fn first_preemptive(n: usize, flags: Flags) -> Option<usize>
    requires { n ≤ 32 }
    ensures { MatchOption result (first_in n flags ≡ 0) (λ k. first_in n flags ≡ k + 1) }
{
    (0..n).find(|&k| flags::flag_at(flags, k) != 0)
}

// One task alone, held as failing tasks are held.
fn one_alone(n: usize, place: usize) -> Flags
    requires { (n ≤ 32) × (place < n) }
    ensures { result ≡ alone n (place + 1) }
{
    let mut places = [1u32; 32];
    places[place] = 0;
    flags::failing_of(n, &places)
}

// What a test that fails forces: the preemptive tasks without a bound; if there are none, the lowest-numbered
// preemptive one, which stands at `first`.
fn to_force(n: usize, flags: Flags, failing: Flags, first: usize) -> Flags
    requires { (n ≤ 32) × (first < n) }
    ensures { result ≡ to_force n flags failing (first + 1) }
{
    if flags::last_lacking(flags, failing) == 0 {
        one_alone(n, first)
    } else {
        failing
    }
}

// Forcing: tests, each from no slack, until every task has a bound or no task is preemptive; each test but
// the last makes tasks non-preemptive. The bounds of the last test go to the row.
pub fn force_rounds(rows: &Rows, given: Flags, bounds: &mut [u32; 32]) -> Forced2
    requires { (given ≡ held (flag_in given) rows.now.head.n) × (Ends rows.now.head.n bounds.old) }
    ensures { Ended2 (system_held rows.now)
        given bounds.new result }
{
    let mut flags = given;
    let mut passes: u32 = 1;
    // A loop: only a test says whether there is a next one.
    loop {
        let rounds = round_test::test_rounds(rows, flags, bounds);
        let failing = flags::failing_of(rows.head.n, bounds);
        let lowest = flags::lowest_failing(failing);
        match first_preemptive(rows.head.n, flags) {
            Some(first) if lowest != 0 => {
                let forced = to_force(rows.head.n, flags, failing, first);
                flags = flags::with_failing(flags, forced);
                passes += 1;
            }
            _ => {
                return Forced2 {
                    flags,
                    passes,
                    rounds,
                    failing: lowest,
                };
            }
        }
    }
}
