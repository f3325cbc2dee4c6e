// Either job under either edition, on a plan text and on a flat table, over rows and flags from reading to
// the records. Under the first edition what is loaded is answered as `asked` does it, without rounds.
#![tactic(auto)]

ghost use Rattle.std.specs.Prelude.{◌≡◌, replicate};
ghost use Rattle.edition_2.specs.Rows.{said_rounded};
ghost use Rattle.asked.specs.Asked.{seen, given_in, Answerable, AnsweredOf};
ghost use Rattle.asked_in.specs.AskedIn.{found_second, found_in, PlanAskedIn, TasksAskedIn};

use asked::Asked;
use edition_2::RoundsSaid;
use editions::Edition;
use flags::{Flags, NO_FLAGS};
use planner::Job;
use rows::{NO_ROWS, Rows};
use table::Refusal;

// An answer, how many records were written, and the round count of the last test.
#[derive(Clone, Copy)]
pub struct AskedIn {
    pub asked: Asked,
    pub rounds: u32,
}

// What is loaded is answered by the second edition: its fault, 13 where there is too little room, or what the
// job says of it.
fn answered_second(
    job: Job,
    room: usize,
    loaded: Result<(&Rows, Flags), Refusal>,
    bounds: &mut [u32; 32],
) -> RoundsSaid
    requires { (Answerable (seen loaded)) × (bounds.old ≡ replicate 32 0) }
    ensures { AnsweredOf (found_second job room) (seen loaded.entry)
        (said_rounded (given_in (seen loaded.entry)) result bounds.new) }
{
    match loaded {
        Err(why) => RoundsSaid {
            said: planner::unsaid(why, 0, NO_FLAGS),
            rounds: 0,
        },
        Ok((rows, given)) => {
            if room < rows.head.n {
                let why = Refusal {
                    number: 13,
                    place: 0,
                };
                return RoundsSaid {
                    said: planner::unsaid(why, 0, given),
                    rounds: 0,
                };
            }
            edition_2::rows_second(job, rows, given, bounds)
        }
    }
}

// The same by either edition.
fn answered_in(
    edition: Edition,
    job: Job,
    room: usize,
    loaded: Result<(&Rows, Flags), Refusal>,
    bounds: &mut [u32; 32],
) -> RoundsSaid
    requires { (Answerable (seen loaded)) × (bounds.old ≡ replicate 32 0) }
    ensures { AnsweredOf (found_in edition job room) (seen loaded.entry)
        (said_rounded (given_in (seen loaded.entry)) result bounds.new) }
{
    match edition {
        Edition::First => RoundsSaid {
            said: asked::answered(job, room, loaded, bounds),
            rounds: 0,
        },
        Edition::Second => answered_second(job, room, loaded, bounds),
    }
}

// The job on a plan text.
pub fn plan_asked_in(edition: Edition, job: Job, text: &[u8], records: &mut [u32]) -> AskedIn
    ensures { PlanAskedIn edition job text.now records.old result
        records.new }
{
    let mut rows = NO_ROWS;
    let mut bounds = [0u32; 32];
    let loaded = row_reader::load_plan(text, &mut rows);
    let lent = asked::lend(loaded, &rows);
    let room = records.len() / 3;
    let RoundsSaid { said, rounds } = answered_in(edition, job, room, lent, &mut bounds);
    asked::put_said(records, loaded.unwrap_or(NO_FLAGS), said, &bounds);
    let asked = Asked {
        answer: said.answer,
        count: said.count,
        word: flags::word_of(said.flags, said.count),
    };
    AskedIn { asked, rounds }
}

// The job on cores, policy and a flat table: five numbers to a task where the levels are given, else four.
pub fn tasks_asked_in(
    edition: Edition,
    job: Job,
    cores: u32,
    policy: u32,
    levels: bool,
    tasks: &[u32],
    records: &mut [u32],
) -> AskedIn
    ensures { TasksAskedIn levels edition job cores policy tasks.now
        records.old result records.new }
{
    let mut rows = NO_ROWS;
    let mut bounds = [0u32; 32];
    let loaded = row_list::load_list(cores, policy, levels, tasks, &mut rows);
    let lent = asked::lend(loaded, &rows);
    let room = records.len() / 3;
    let RoundsSaid { said, rounds } = answered_in(edition, job, room, lent, &mut bounds);
    asked::put_said(records, loaded.unwrap_or(NO_FLAGS), said, &bounds);
    let asked = Asked {
        answer: said.answer,
        count: said.count,
        word: flags::word_of(said.flags, said.count),
    };
    AskedIn { asked, rounds }
}
