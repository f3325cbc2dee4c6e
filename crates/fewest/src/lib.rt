// The fewest cores with which forcing accepts, by value: document 02, Wish 5. The number is found by halving,
// in at most five forcings: with 16 cores, and then four times in the middle of what is left.
#![tactic(auto)]

ghost use Rattle.std.specs.Prelude.{◌≡◌, ◌≤◌};
ghost use Rattle.table.specs.Table.{LegalTable};
ghost use Rattle.flags.specs.Flags.{flag_in, held};
ghost use Rattle.rows.specs.Whole.{OnCores};
ghost use Rattle.planner.specs.Rows.{OfTable};
ghost use Rattle.planner.specs.Done.{force_done};
ghost use Rattle.cores.specs.Cores.{on_cores, says_yes};
ghost use Rattle.fewest.specs.Fewest.{refuse_fewest, legal_fewest, room_fewest, plan_fewest, list_fewest};

use flags::Flags;
use planner::{Done, Job};
use rows::{NO_ROWS, Rows};
use table::{Refusal, Table, Task};

// What forcing gives with the fewest cores, and their number; a refusal has 0 for it.
#[derive(Clone, Copy)]
pub struct Fewest {
    pub done: Done,
    pub cores: u32,
}

// What forcing gives with m cores, whatever the rows said of them.
fn force_on(rows: &mut Rows, given: Flags, m: u32) -> Done
    requires { (1 ≤ m) × (m ≤ 16) × (given ≡ held (flag_in given) rows.old.head.n) }
    ensures { (OfTable (λ t. force_done (on_cores t m)) rows.old given result)
        × (OnCores rows.old m rows.new) }
{
    rows.set_cores(m);
    let mut bounds = [0u32; 32];
    let said = planner::rows_said(Job::Force, rows, given, &mut bounds);
    // It is at most 32, but the promise says so of the rows of a table alone.
    let count = said.count.min(32);
    Done {
        answer: said.answer,
        count,
        recs: planner::records(count, given, said.flags, &bounds),
    }
}

// Whether forcing accepted.
fn says_yes(d: Done) -> bool
    ensures { result ≡ says_yes d }
{
    d.answer.is_ok_and(|v| v.yes)
}

// The fewest cores for a table in rows. With `low` cores forcing refuses, or there are none; with `high` it
// accepts, and `done` is what it gives.
fn rows_fewest(rows: &mut Rows, given: Flags) -> Fewest
    requires { given ≡ held (flag_in given) rows.old.head.n }
    ensures { OfTable legal_fewest rows.old given result }
{
    let mut done = force_on(rows, given, 16);
    if !says_yes(done) {
        return Fewest { done, cores: 0 };
    }
    let mut low = 0;
    let mut high = 16;
    // A while: the range is halved, no range gives its values.
    while low + 1 < high {
        let middle = (low + high) / 2;
        let tried = force_on(rows, given, middle);
        if says_yes(tried) {
            done = tried;
            high = middle;
        } else {
            low = middle;
        }
    }
    Fewest { done, cores: high }
}

// The fewest cores for a legal table.
pub fn legal_fewest(t: Table) -> Fewest
    requires { LegalTable t }
    ensures { result ≡ legal_fewest t }
{
    let mut rows = NO_ROWS;
    rows::rows_of(t, &mut rows);
    rows_fewest(&mut rows, flags::flags_of(t))
}

// A refusal: no cores.
fn refused(why: Refusal) -> Fewest
    ensures { result ≡ refuse_fewest why }
{
    Fewest {
        done: planner::refused(why, 0),
        cores: 0,
    }
}

// 13 before any forcing, where the caller's list has too little room.
fn room_fewest(rows: &mut Rows, given: Flags, room: usize) -> Fewest
    requires { given ≡ held (flag_in given) rows.old.head.n }
    ensures { OfTable (λ t. room_fewest t room) rows.old given result }
{
    if room < rows.head.n {
        let why = Refusal {
            number: 13,
            place: 0,
        };
        return refused(why);
    }
    rows_fewest(rows, given)
}

// The fewest cores for a plan; room is the length of the caller's list.
pub fn plan_fewest(text: &[u8], room: usize) -> Fewest
    ensures { result ≡ plan_fewest text.now room }
{
    let mut rows = NO_ROWS;
    match row_reader::load_plan(text, &mut rows) {
        Ok(given) => room_fewest(&mut rows, given, room),
        Err(why) => refused(why),
    }
}

// The fewest cores for a list of n tasks, of which those past the 32nd are not there. The caller's number of
// cores is checked, and otherwise not used.
#[tactic(auto, unfolding(crate::specs::Fewest::list_fewest))]
pub fn list_fewest(cores: u32, policy: u32, n: usize, tasks: [Task; 32], room: usize) -> Fewest
    ensures { result ≡ list_fewest cores policy n tasks room }
{
    let t = Table {
        cores,
        policy,
        n,
        tasks,
    };
    match table::check_table(t) {
        Ok(()) => {
            let mut rows = NO_ROWS;
            rows::rows_of(t, &mut rows);
            room_fewest(&mut rows, flags::flags_of(t), room)
        }
        Err(why) => refused(why),
    }
}
