// What edition 2 answers a legal table: its test and its forcing, each with the round count of its last test.
// Document 02, Wish 4; records and refusals are the planner's.
#![tactic(auto)]

ghost use Rattle.std.specs.Prelude.{◌≡◌, replicate};
ghost use Rattle.table.specs.Table.{LegalTable};
ghost use Rattle.flags.specs.Flags.{flag_in, held};
ghost use Rattle.planner.specs.Rows.{OfTable};
ghost use Rattle.edition_2.specs.Second.{unrounded, test_second, force_second, legal_second};
ghost use Rattle.edition_2.specs.Rows.{said_rounded};

use flags::Flags;
use planner::{Done, Job, Said, Verdict};
use rows::{NO_ROWS, Rows};
use table::{Refusal, Table};

// An answer with the round count of the last test; 0 where there was none, and in every refusal.
#[derive(Clone, Copy)]
pub struct Rounded {
    pub done: Done,
    pub rounds: u32,
}

// The same where its records are not listed yet: they have the flags that are said, and the bounds in a row
// beside it.
#[derive(Clone, Copy)]
pub struct RoundsSaid {
    pub said: Said,
    pub rounds: u32,
}

// An answer without rounds.
pub fn without_rounds(d: Done) -> Rounded
    ensures { result ≡ unrounded d }
{
    Rounded { done: d, rounds: 0 }
}

// The test of the rows of a legal table, and its flags.
fn tested(rows: &Rows, given: Flags, bounds: &mut [u32; 32]) -> RoundsSaid
    requires { (bounds.old ≡ replicate 32 0) }
    ensures { OfTable test_second rows.now given (said_rounded given result bounds.new) }
{
    let rounds = round_test::test_rounds(rows, given, bounds);
    let failing = flags::lowest_failing(flags::failing_of(rows.head.n, bounds));
    let said = Said {
        answer: Ok(Verdict {
            yes: failing == 0,
            forced: 0,
            passes: 0,
        }),
        count: rows.head.n,
        flags: given,
    };
    RoundsSaid { said, rounds }
}

// Forcing of them: refused with 15, the lowest failing task and the passes, or accepted.
fn forced(rows: &Rows, given: Flags, bounds: &mut [u32; 32]) -> RoundsSaid
    requires { (given ≡ held (flag_in given) rows.now.head.n) × (bounds.old ≡ replicate 32 0) }
    ensures { OfTable force_second rows.now given (said_rounded given result bounds.new) }
{
    let end = round_force::force_rounds(rows, given, bounds);
    if end.failing != 0 {
        let why = Refusal {
            number: 15,
            place: end.failing,
        };
        return RoundsSaid {
            said: planner::unsaid(why, end.passes, given),
            rounds: 0,
        };
    }
    let said = Said {
        answer: Ok(Verdict {
            yes: true,
            forced: flags::count_changed(given, end.flags),
            passes: end.passes,
        }),
        count: rows.head.n,
        flags: end.flags,
    };
    RoundsSaid {
        said,
        rounds: end.rounds,
    }
}

// What edition 2 answers a legal table, from its rows and flags. The bounds of the records are left in the
// row.
pub fn rows_second(job: Job, rows: &Rows, given: Flags, bounds: &mut [u32; 32]) -> RoundsSaid
    requires { (given ≡ held (flag_in given) rows.now.head.n) × (bounds.old ≡ replicate 32 0) }
    ensures { OfTable (λ t. legal_second t job) rows.now given (said_rounded given result bounds.new) }
{
    match job {
        Job::Test => tested(rows, given, bounds),
        Job::Force => forced(rows, given, bounds),
    }
}

// What edition 2 answers a legal table.
pub fn legal_second(t: Table, job: Job) -> Rounded
    requires { LegalTable t }
    ensures { result ≡ legal_second t job }
{
    let mut rows = NO_ROWS;
    rows::rows_of(t, &mut rows);
    let given = flags::flags_of(t);
    let mut bounds = [0u32; 32];
    let RoundsSaid { said, rounds } = rows_second(job, &rows, given, &mut bounds);
    let done = Done {
        answer: said.answer,
        count: said.count,
        recs: planner::records(said.count, given, said.flags, &bounds),
    };
    Rounded { done, rounds }
}
