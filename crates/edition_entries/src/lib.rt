// The entries over lent lists with the edition beside the job: the records go to the caller's list as under
// the first edition, and the round count comes with the answer. The work is done by value in `editions`; what
// is here passes the list on to `entries`.
#![tactic(auto)]

ghost use Rattle.std.specs.Prelude.{◌≤◌, length};
ghost use Rattle.planner.specs.Calls.{plan, tasks as list};
ghost use Rattle.editions.specs.Editions.{AllowsIn, AnsweredIn};

use edition_2::Rounded;
use editions::Edition;
use planner::{Answer, Job, Record};
use table::Task;

// An answer, and the round count of its last test.
#[derive(Clone, Copy)]
pub struct Reply {
    pub answer: Answer,
    pub rounds: u32,
}

// The records of an answer go into the first places of the caller's list, and the rest of the list stays.
fn put_rounded(records: &mut [Record], r: Rounded) -> Reply
    requires { (r.done.count ≤ length records.old) × (r.done.count ≤ 32) }
    ensures { AllowsIn r records.old result.answer result.rounds records.new }
{
    Reply {
        answer: entries::put_done(records, r.done),
        rounds: r.rounds,
    }
}

// A plan in lines of hexadecimal. A refusal leaves the records as they were; else each task has one, and the
// rest stay.
pub fn run_plan_in(edition: Edition, text: &[u8], job: Job, records: &mut [Record]) -> Reply
    ensures { AnsweredIn edition (plan text.now) job records.old result.answer
        result.rounds records.new }
{
    let r = editions::plan_in(edition, text, job, records.len());
    put_rounded(records, r)
}

// Cores, policy and a list of tasks, whatever their numbers are. The records go as for a plan.
pub fn run_tasks_in(
    edition: Edition,
    cores: u32,
    policy: u32,
    tasks: &[Task],
    job: Job,
    records: &mut [Record],
) -> Reply
    ensures { AnsweredIn edition (list cores policy tasks.now) job records.old
        result.answer result.rounds records.new }
{
    let all = entries::load_tasks(tasks);
    let r = editions::list_in(edition, cores, policy, tasks.len(), all, job, records.len());
    put_rounded(records, r)
}
