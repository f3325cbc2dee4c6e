// The planner's entries over lent lists: a plan, or a list of tasks, is tested or forced, and the records go
// to the caller's list; a list of tasks is written as a plan. None asks anything of its caller. The work is
// done by value in `planner` and `writer`; what is here moves records and tasks.
#![tactic(auto)]

ghost use Rattle.std.specs.Prelude.{◌≡◌, ◌≤◌, length};
ghost use Rattle.planner.specs.Done.{loaded, list_after};
ghost use Rattle.planner.specs.Calls.{Answered, plan, tasks as list, list_table};
ghost use Rattle.writer.specs.Written.{WroteAs};

use planner::{Answer, Done, Job, Record};
use table::{NO_TASK, Refusal, Task};

// The records of an answer go into the first places of the caller's list, and the rest of the list stays.
pub fn put_done(records: &mut [Record], d: Done) -> Answer
    requires { (d.count ≤ length records.old) × (d.count ≤ 32) }
    ensures { (result ≡ d.answer) × (records.new ≡ list_after d records.old) }
{
    let n = d.count;
    records[..n].copy_from_slice(&d.recs[..n]);
    d.answer
}

// The first 32 tasks of the caller's list, with zeros past its end.
#[tactic(auto, unfolding(planner::specs::Done::loaded))]
pub fn load_tasks(tasks: &[Task]) -> [Task; 32]
    ensures { result ≡ loaded tasks.now }
{
    let n = tasks.len().min(32);
    let mut all = [NO_TASK; 32];
    all[..n].copy_from_slice(&tasks[..n]);
    all
}

// A plan in lines of hexadecimal. A refusal leaves the records as they were; else each task has one, and the
// rest stay.
pub fn run_plan(text: &[u8], job: Job, records: &mut [Record]) -> Answer
    ensures { Answered (plan text.now) job records.old result
        records.new }
{
    let d = planner::plan_done(text, job, records.len());
    put_done(records, d)
}

// Cores, policy and a list of tasks, whatever their numbers are. The records go as for a plan.
pub fn run_tasks(
    cores: u32,
    policy: u32,
    tasks: &[Task],
    job: Job,
    records: &mut [Record],
) -> Answer
    ensures { Answered (list cores policy tasks.now) job records.old result
        records.new }
{
    let all = load_tasks(tasks);
    let d = planner::list_done(cores, policy, tasks.len(), all, job, records.len());
    put_done(records, d)
}

// Cores, policy and a list of tasks, whatever their numbers are, as a plan from the place `at` of the buffer
// on. A refusal writes nothing; else the bytes before the place and those after the end stay.
pub fn write_tasks(
    cores: u32,
    policy: u32,
    tasks: &[Task],
    out: &mut [u8],
    at: usize,
) -> Result<usize, Refusal>
    ensures { WroteAs (list_table cores policy tasks.now) out.old at result
        out.new }
{
    let all = load_tasks(tasks);
    writer::write_list(cores, policy, tasks.len(), all, out, at)
}
