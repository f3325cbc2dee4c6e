// The planner under either edition, by value, in stages: a plan is read, or a table is checked; there is room
// for its records; and the legal table is answered, with the round count of its last test. Under the first
// edition all of it is the planner's, and there are no rounds.
#![tactic(auto)]

ghost use Rattle.std.specs.Prelude.{◌≡◌};
ghost use Rattle.table.specs.Table.{LegalTable};
ghost use Rattle.editions.specs.Editions.{room_second, plan_second, list_second, legal_in, plan_in, list_in};

use edition_2::Rounded;
use planner::Job;
use table::{Refusal, Table, Task};

// Which edition of the test is asked for.
#[derive(Clone, Copy)]
pub enum Edition {
    First,
    Second,
}

// 13 before any test, where the caller's list has too little room.
#[tactic(auto, unfolding(crate::specs::Editions::room_second))]
fn room_second(t: Table, job: Job, room: usize) -> Rounded
    requires { LegalTable t }
    ensures { result ≡ room_second t job room }
{
    if room < t.n {
        let why = Refusal {
            number: 13,
            place: 0,
        };
        return edition_2::without_rounds(planner::refused(why, 0));
    }
    edition_2::legal_second(t, job)
}

// What edition 2 answers a plan.
#[tactic(auto, unfolding(crate::specs::Editions::plan_second))]
fn plan_second(text: &[u8], job: Job, room: usize) -> Rounded
    ensures { result ≡ plan_second text.now job room }
{
    let reading = reader::read_plan(text);
    match reading.answer {
        Ok(()) => room_second(reading.table, job, room),
        Err(why) => edition_2::without_rounds(planner::refused(why, 0)),
    }
}

// And a list of n tasks, of which those past the 32nd are not there.
#[tactic(auto, unfolding(crate::specs::Editions::list_second))]
fn list_second(
    cores: u32,
    policy: u32,
    n: usize,
    tasks: [Task; 32],
    job: Job,
    room: usize,
) -> Rounded
    ensures { result ≡ list_second cores policy n tasks job room }
{
    let t = Table {
        cores,
        policy,
        n,
        tasks,
    };
    match table::check_table(t) {
        Ok(()) => room_second(t, job, room),
        Err(why) => edition_2::without_rounds(planner::refused(why, 0)),
    }
}

// What a legal table is answered.
#[tactic(auto, unfolding(crate::specs::Editions::legal_in))]
pub fn legal_in(edition: Edition, t: Table, job: Job) -> Rounded
    requires { LegalTable t }
    ensures { result ≡ legal_in edition t job }
{
    match edition {
        Edition::First => edition_2::without_rounds(planner::legal_done(t, job)),
        Edition::Second => edition_2::legal_second(t, job),
    }
}

// The answer to a plan; room is the length of the caller's list.
#[tactic(auto, unfolding(crate::specs::Editions::plan_in))]
pub fn plan_in(edition: Edition, text: &[u8], job: Job, room: usize) -> Rounded
    ensures { result ≡ plan_in edition text.now job room }
{
    match edition {
        Edition::First => edition_2::without_rounds(planner::plan_done(text, job, room)),
        Edition::Second => plan_second(text, job, room),
    }
}

// The answer to a list of n tasks.
#[tactic(auto, unfolding(crate::specs::Editions::list_in))]
pub fn list_in(
    edition: Edition,
    cores: u32,
    policy: u32,
    n: usize,
    tasks: [Task; 32],
    job: Job,
    room: usize,
) -> Rounded
    ensures { result ≡ list_in edition cores policy n tasks job room }
{
    match edition {
        Edition::First => edition_2::without_rounds(planner::list_done(
            cores, policy, n, tasks, job, room,
        )),
        Edition::Second => list_second(cores, policy, n, tasks, job, room),
    }
}
