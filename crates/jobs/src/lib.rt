// Either job on a plan text and on a flat table: what is answered goes into a lent list of numbers, in one
// order for all calls (the crate told), and the records into another.
#![tactic(auto)]

ghost use Rattle.std.specs.Prelude.{◌≤◌};
ghost use Rattle.jobs.specs.Jobs.{Heard, PlanTold, TasksTold};

use asked::Asked;
use planner::Job;

// What is answered, into its lent list; 1 for a yes.
fn tell(answer: &mut [u32], asked: Asked) -> u32
    requires { asked.count ≤ 32 }
    ensures { Heard asked answer.old result answer.new }
{
    let told = told::told_of(asked.answer, asked.count as u32, asked.word);
    told::put_told(answer, told);
    told[2]
}

// The job on a plan text.
pub fn job_plan(job: Job, text: &[u8], records: &mut [u32], answer: &mut [u32]) -> u32
    ensures { PlanTold job text.now records.old answer.old result
        records.new answer.new }
{
    let asked = asked::plan_asked(job, text, records);
    tell(answer, asked)
}

// The job on cores, policy and a flat table: five numbers to a task where the levels are given, else four.
pub fn job_tasks(
    job: Job,
    cores: u32,
    policy: u32,
    levels: bool,
    tasks: &[u32],
    records: &mut [u32],
    answer: &mut [u32],
) -> u32
    ensures { TasksTold levels job cores policy tasks.now records.old
        answer.old result records.new answer.new }
{
    let asked = asked::tasks_asked(job, cores, policy, levels, tasks, records);
    tell(answer, asked)
}
