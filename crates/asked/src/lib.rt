// Either job on a plan text and on a flat table, over rows and flags from reading to the records: no table
// and no list of records goes from one level to the next.
#![tactic(auto)]

ghost use Rattle.std.specs.Prelude.{◌≡◌, length, replicate};
ghost use Rattle.flat.specs.Flat.{flat_after, Fits};
ghost use Rattle.planner.specs.Rows.{said_done};
ghost use Rattle.asked.specs.Asked.{lent, seen, given_in, Answerable, Answered, PlanAsked, TasksAsked};

use flags::{Flags, NO_FLAGS};
use planner::{Answer, Job, Record, Said};
use rows::{NO_ROWS, Rows};
use table::Refusal;

// An answer, how many records were written, and their flags in one word.
#[derive(Clone, Copy)]
pub struct Asked {
    pub answer: Answer,
    pub count: usize,
    pub word: u32,
}

// The records of an answer go to the front of the caller's numbers, and the rest of them stays.
pub fn put_said(out: &mut [u32], given: Flags, said: Said, bounds: &[u32; 32])
    requires { Fits (said_done given said bounds.now) (length out.old) }
    ensures { out.new ≡ flat_after (said_done given said bounds.now)
        out.old }
{
    for i in 0..said.count {
        let flag = flags::flag_at(said.flags, i);
        let forced = flags::change(flags::flag_at(given, i), flag);
        let one = Record {
            flag,
            forced,
            bound: bounds[i],
        };
        flat::put_record(out, i, one);
    }
}

// What was loaded, with its rows; of a refused loading the fault alone.
pub fn lend(loaded: Result<Flags, Refusal>, rows: &Rows) -> Result<(&Rows, Flags), Refusal>
    ensures { seen result ≡ lent loaded rows.now }
{
    match loaded {
        Ok(given) => Ok((rows, given)),
        Err(why) => Err(why),
    }
}

// What is loaded is answered: its fault, 13 where there is too little room, or what the job says of it.
pub fn answered(
    job: Job,
    room: usize,
    loaded: Result<(&Rows, Flags), Refusal>,
    bounds: &mut [u32; 32],
) -> Said
    requires { (Answerable (seen loaded)) × (bounds.old ≡ replicate 32 0) }
    ensures { Answered job room (seen loaded.entry)
        (said_done (given_in (seen loaded.entry)) result bounds.new) }
{
    match loaded {
        Err(why) => planner::unsaid(why, 0, NO_FLAGS),
        Ok((rows, given)) => {
            if room < rows.head.n {
                let why = Refusal {
                    number: 13,
                    place: 0,
                };
                return planner::unsaid(why, 0, given);
            }
            planner::rows_said(job, rows, given, bounds)
        }
    }
}

// The job on a plan text.
pub fn plan_asked(job: Job, text: &[u8], records: &mut [u32]) -> Asked
    ensures { PlanAsked job text.now records.old result records.new }
{
    let mut rows = NO_ROWS;
    let mut bounds = [0u32; 32];
    let loaded = row_reader::load_plan(text, &mut rows);
    let lent = lend(loaded, &rows);
    let said = answered(job, records.len() / 3, lent, &mut bounds);
    put_said(records, loaded.unwrap_or(NO_FLAGS), said, &bounds);
    Asked {
        answer: said.answer,
        count: said.count,
        word: flags::word_of(said.flags, said.count),
    }
}

// The job on cores, policy and a flat table: five numbers to a task where the levels are given, else four.
pub fn tasks_asked(
    job: Job,
    cores: u32,
    policy: u32,
    levels: bool,
    tasks: &[u32],
    records: &mut [u32],
) -> Asked
    ensures { TasksAsked levels job cores policy tasks.now records.old result
        records.new }
{
    let mut rows = NO_ROWS;
    let mut bounds = [0u32; 32];
    let loaded = row_list::load_list(cores, policy, levels, tasks, &mut rows);
    let lent = lend(loaded, &rows);
    let said = answered(job, records.len() / 3, lent, &mut bounds);
    put_said(records, loaded.unwrap_or(NO_FLAGS), said, &bounds);
    Asked {
        answer: said.answer,
        count: said.count,
        word: flags::word_of(said.flags, said.count),
    }
}
