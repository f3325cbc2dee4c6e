// The planner for C and Rust: the two jobs on a plan text and on a flat table of numbers, with flat records.
// An archive has the functions of its own crate only; each hands on to one below it, and promises the same.
// Here are the two calls whose answer is one number; `asking` has a function for each job with a lent answer,
// `second` those of the second edition, `counting` those that give the fewest cores, `writing` those that
// write a plan, and `levels` those whose tasks have five numbers, the level last; in all others they have
// four, and a task's place is its level.
#![tactic(auto)]

mod asking;
mod counting;
mod levels;
mod second;
mod writing;

ghost use Rattle.coded.specs.Coded.{PlanCoded, TasksCoded};

// The answer to a plan text.
#[unsafe(no_mangle)]
pub extern "C" fn eskihrum_plan(job: u32, text: &[u8], records: &mut [u32]) -> u64
    ensures { PlanCoded job text.now records.old result records.new }
{
    coded::code_plan(job, text, records)
}

// The answer to cores, policy and a flat table.
#[unsafe(no_mangle)]
pub extern "C" fn eskihrum_tasks(
    job: u32,
    cores: u32,
    policy: u32,
    tasks: &[u32],
    records: &mut [u32],
) -> u64
    ensures { TasksCoded job cores policy tasks.now records.old result
        records.new }
{
    coded::code_tasks(job, cores, policy, tasks, records)
}
