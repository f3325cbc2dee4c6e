// The first two calls for C and Rust: the job is a number, and the answer is one number.
#![tactic(auto)]

ghost use Rattle.std.specs.Prelude.{◌≡◌, ◌+◌, ◌*◌};
ghost use Rattle.coded.specs.Coded.{job_of, code_of, PlanCoded, TasksCoded};

use planner::{Answer, Job, Stop};

// 0 asks for the test, every other number for forcing.
fn job_of(job: u32) -> Job
    ensures { result ≡ job_of job }
{
    if job == 0 { Job::Test } else { Job::Force }
}

// The parts of an answer in one number, a byte each, and bit 32 for a yes.
#[tactic(auto, unfolding(crate::specs::Coded::yes_bit))]
fn code_of(answer: Answer) -> u64
    ensures { result ≡ code_of answer }
{
    match answer {
        Ok(v) => {
            4294967296 * u64::from(v.yes)
                + 16777216 * u64::from(v.passes)
                + 65536 * u64::from(v.forced)
        }
        Err(Stop { why, passes }) => {
            16777216 * u64::from(passes) + 256 * u64::from(why.place) + u64::from(why.number)
        }
    }
}

// The answer to a plan text.
pub fn code_plan(job: u32, text: &[u8], records: &mut [u32]) -> u64
    ensures { PlanCoded job text.now records.old result records.new }
{
    let asked = asked::plan_asked(job_of(job), text, records);
    code_of(asked.answer)
}

// The answer to cores, policy and a flat table, four numbers to a task.
pub fn code_tasks(job: u32, cores: u32, policy: u32, tasks: &[u32], records: &mut [u32]) -> u64
    ensures { TasksCoded job cores policy tasks.now records.old result
        records.new }
{
    let asked = asked::tasks_asked(job_of(job), cores, policy, false, tasks, records);
    code_of(asked.answer)
}
