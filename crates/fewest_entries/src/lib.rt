// The fewest cores over lent lists: of a plan, or of a list of tasks, with the records of that forcing in the
// caller's list. Neither asks anything of its caller. The work is done by value in `fewest`.
#![tactic(auto)]

ghost use Rattle.std.specs.Prelude.{◌≡◌, ◌≤◌, length};
ghost use Rattle.planner.specs.Done.{list_after};
ghost use Rattle.fewest_entries.specs.Calls.{reply_of, Replied};
ghost use Rattle.planner.specs.Calls.{plan, tasks as list};

use fewest::Fewest;
use planner::{Answer, Record};
use table::Task;

// An answer, and with how many cores it was found; 0 cores in a refusal.
#[derive(Clone, Copy)]
pub struct Reply {
    pub answer: Answer,
    pub cores: u32,
}

// What was found, with its records in the caller's list.
fn put_fewest(records: &mut [Record], f: Fewest) -> Reply
    requires { (f.done.count ≤ length records.old) × (f.done.count ≤ 32) }
    ensures { (result ≡ reply_of f) × (records.new ≡ list_after f.done records.old) }
{
    Reply {
        answer: entries::put_done(records, f.done),
        cores: f.cores,
    }
}

// A plan in lines of hexadecimal. A refusal leaves the records as they were; else each task has one, and the
// rest stay.
pub fn fewest_plan(text: &[u8], records: &mut [Record]) -> Reply
    ensures { Replied (plan text.now) records.old result records.new }
{
    let f = fewest::plan_fewest(text, records.len());
    put_fewest(records, f)
}

// Cores, policy and a list of tasks, whatever their numbers are. The records go as for a plan.
pub fn fewest_tasks(cores: u32, policy: u32, tasks: &[Task], records: &mut [Record]) -> Reply
    ensures { Replied (list cores policy tasks.now) records.old result
        records.new }
{
    let all = entries::load_tasks(tasks);
    let f = fewest::list_fewest(cores, policy, tasks.len(), all, records.len());
    put_fewest(records, f)
}
