// The planner by value, in stages: a plan is read, or a table is checked; there is room for its records; and
// the legal table is answered. Document 01, "Testing and forcing" and "Numbered refusals".
#![tactic(auto)]

ghost use Rattle.std.specs.Prelude.{◌≡◌, ◌≤◌, replicate};
ghost use Rattle.base.specs.Rows.{at};
ghost use Rattle.table.specs.Table.{LegalTable};
ghost use Rattle.flags.specs.Flags.{flag_in, held};
ghost use Rattle.planner.specs.Answers.{stop, changes, records_of};
ghost use Rattle.planner.specs.Done.{refuse, test_done, force_done, legal_done, room_done, plan_done};
ghost use Rattle.planner.specs.Done.{list_done};
ghost use Rattle.planner.specs.Rows.{unsaid, said_done, OfTable};

use flags::Flags;
use rows::{NO_ROWS, Rows};
use table::{Refusal, Table, Task};

// One record of an answer: the task's flag, 1 if it was forced, and its bound, 0 for none.
#[repr(C)]
#[derive(Clone, Copy)]
pub struct Record {
    pub flag: u32,
    pub forced: u32,
    pub bound: u32,
}

// What is said of a legal table: a test's yes or no; forcing that accepts says yes, with its forced tasks and
// passes.
#[derive(Clone, Copy)]
pub struct Verdict {
    pub yes: bool,
    pub forced: u32,
    pub passes: u32,
}

// A refusal with the passes that were made.
#[derive(Clone, Copy)]
pub struct Stop {
    pub why: Refusal,
    pub passes: u32,
}

// What is answered: a verdict, or the refusal.
pub type Answer = Result<Verdict, Stop>;

// An answer with its records beside it. The first count of them go to the caller's list, none if it refuses.
#[derive(Clone, Copy)]
pub struct Done {
    pub answer: Answer,
    pub count: usize,
    pub recs: [Record; 32],
}

// An answer whose records are not listed yet: the first count of them have these flags, and the bounds in a
// row beside it.
#[derive(Clone, Copy)]
pub struct Said {
    pub answer: Answer,
    pub count: usize,
    pub flags: Flags,
}

// A refusal with no pass before it.
impl From<Refusal> for Stop {
    ghost from_gives = { λ why s. s ≡ stop why 0 };

    fn from(why: Refusal) -> Stop {
        Stop { why, passes: 0 }
    }
}

// What is asked for.
#[derive(Clone, Copy)]
pub enum Job {
    Test,
    Force,
}

// What stands past the last record.
pub const NO_RECORD: Record = Record {
    flag: 0,
    forced: 0,
    bound: 0,
};

// A refusal: no record goes to the caller.
pub fn refused(why: Refusal, passes: u32) -> Done
    ensures { result ≡ refuse why passes }
{
    Done {
        answer: Err(Stop { why, passes }),
        count: 0,
        recs: [NO_RECORD; 32],
    }
}

// The same before any record is listed.
pub fn unsaid(why: Refusal, passes: u32, given: Flags) -> Said
    ensures { result ≡ unsaid why passes given }
{
    Said {
        answer: Err(Stop { why, passes }),
        count: 0,
        flags: given,
    }
}

// A record for each of the first n tasks, with the forced mark where the flag is not the given one.
pub fn records(n: usize, given: Flags, flags: Flags, bounds: &[u32; 32]) -> [Record; 32]
    requires { n ≤ 32 }
    ensures { result ≡ records_of n (flag_in flags) (changes (flag_in given) (flag_in flags))
        (at bounds.now) }
{
    let mut recs = [NO_RECORD; 32];
    for i in 0..n {
        let flag = flags::flag_at(flags, i);
        let forced = flags::change(flags::flag_at(given, i), flag);
        recs[i] = Record {
            flag,
            forced,
            bound: bounds[i],
        };
    }
    recs
}

// The test of the rows of a legal table, and its flags.
fn tested(rows: &Rows, given: Flags, bounds: &mut [u32; 32]) -> Said
    requires { (bounds.old ≡ replicate 32 0) }
    ensures { OfTable test_done rows.now given (said_done given result bounds.new) }
{
    passes::test_rows(rows, given, bounds);
    let failing = flags::lowest_failing(flags::failing_of(rows.head.n, bounds));
    Said {
        answer: Ok(Verdict {
            yes: failing == 0,
            forced: 0,
            passes: 0,
        }),
        count: rows.head.n,
        flags: given,
    }
}

// Forcing of them: refused with the lowest failing task and the passes, or accepted.
fn forced(rows: &Rows, given: Flags, bounds: &mut [u32; 32]) -> Said
    requires { (given ≡ held (flag_in given) rows.now.head.n) × (bounds.old ≡ replicate 32 0) }
    ensures { OfTable force_done rows.now given (said_done given result bounds.new) }
{
    let end = forcing::force_rows(rows, given, bounds);
    if end.failing != 0 {
        let why = Refusal {
            number: 14,
            place: end.failing,
        };
        return unsaid(why, end.passes, given);
    }
    Said {
        answer: Ok(Verdict {
            yes: true,
            forced: flags::count_changed(given, end.flags),
            passes: end.passes,
        }),
        count: rows.head.n,
        flags: end.flags,
    }
}

// What a legal table is answered, from its rows and flags. The bounds of the records are left in the row.
#[tactic(auto, unfolding(crate::specs::Done::legal_done))]
pub fn rows_said(job: Job, rows: &Rows, given: Flags, bounds: &mut [u32; 32]) -> Said
    requires { (given ≡ held (flag_in given) rows.now.head.n) × (bounds.old ≡ replicate 32 0) }
    ensures { OfTable (λ t. legal_done t job) rows.now given (said_done given result bounds.new) }
{
    match job {
        Job::Test => tested(rows, given, bounds),
        Job::Force => forced(rows, given, bounds),
    }
}

// What a legal table is answered.
pub fn legal_done(t: Table, job: Job) -> Done
    requires { LegalTable t }
    ensures { result ≡ legal_done t job }
{
    let mut rows = NO_ROWS;
    rows::rows_of(t, &mut rows);
    let given = flags::flags_of(t);
    let mut bounds = [0u32; 32];
    let said = rows_said(job, &rows, given, &mut bounds);
    Done {
        answer: said.answer,
        count: said.count,
        recs: records(said.count, given, said.flags, &bounds),
    }
}

// 13 before any test, where the caller's list has too little room.
#[tactic(auto, unfolding(crate::specs::Done::room_done))]
fn room_done(t: Table, job: Job, room: usize) -> Done
    requires { LegalTable t }
    ensures { result ≡ room_done t job room }
{
    if room < t.n {
        let why = Refusal {
            number: 13,
            place: 0,
        };
        return refused(why, 0);
    }
    legal_done(t, job)
}

// The answer to a plan; room is the length of the caller's list.
#[tactic(auto, unfolding(crate::specs::Done::plan_done))]
pub fn plan_done(text: &[u8], job: Job, room: usize) -> Done
    ensures { result ≡ plan_done text.now job room }
{
    let reading = reader::read_plan(text);
    match reading.answer {
        Ok(()) => room_done(reading.table, job, room),
        Err(why) => refused(why, 0),
    }
}

// The answer to a list of n tasks, of which those past the 32nd are not there.
#[tactic(auto, unfolding(crate::specs::Done::list_done))]
pub fn list_done(
    cores: u32,
    policy: u32,
    n: usize,
    tasks: [Task; 32],
    job: Job,
    room: usize,
) -> Done
    ensures { result ≡ list_done cores policy n tasks job room }
{
    let t = Table {
        cores,
        policy,
        n,
        tasks,
    };
    match table::check_table(t) {
        Ok(()) => room_done(t, job, room),
        Err(why) => refused(why, 0),
    }
}
