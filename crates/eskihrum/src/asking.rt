// A function for each job, on a plan text and on a flat table of four numbers a task: what is answered goes
// into a lent list of numbers, in one order for all of them (the crate told).
ghost use Rattle.std.specs.Prelude.{◌≡◌, false};
ghost use Rattle.planner.specs.declared.Job.TheVariants.{Test, Force};
ghost use Rattle.jobs.specs.Jobs.{PlanTold, TasksTold};
ghost use Rattle.eskihrum.specs.Abi.{abi};

use planner::Job;

// What the archive knows: it goes up by one with each further call or number of an answer.
#[unsafe(no_mangle)]
pub extern "C" fn eskihrum_abi() -> u32
    ensures { result ≡ abi }
{
    6
}

// The test of a plan text.
#[unsafe(no_mangle)]
pub extern "C" fn eskihrum_flat_test_plan(
    text: &[u8],
    records: &mut [u32],
    answer: &mut [u32],
) -> u32
    ensures { PlanTold Test text.now records.old answer.old result
        records.new answer.new }
{
    jobs::job_plan(Job::Test, text, records, answer)
}

// Forcing of a plan text.
#[unsafe(no_mangle)]
pub extern "C" fn eskihrum_flat_force_plan(
    text: &[u8],
    records: &mut [u32],
    answer: &mut [u32],
) -> u32
    ensures { PlanTold Force text.now records.old answer.old result
        records.new answer.new }
{
    jobs::job_plan(Job::Force, text, records, answer)
}

// The test of cores, policy and a flat table.
#[unsafe(no_mangle)]
pub extern "C" fn eskihrum_flat_test_tasks(
    cores: u32,
    policy: u32,
    tasks: &[u32],
    records: &mut [u32],
    answer: &mut [u32],
) -> u32
    ensures { TasksTold false Test cores policy tasks.now records.old
        answer.old result records.new answer.new }
{
    jobs::job_tasks(Job::Test, cores, policy, false, tasks, records, answer)
}

// Forcing of cores, policy and a flat table.
#[unsafe(no_mangle)]
pub extern "C" fn eskihrum_flat_force_tasks(
    cores: u32,
    policy: u32,
    tasks: &[u32],
    records: &mut [u32],
    answer: &mut [u32],
) -> u32
    ensures { TasksTold false Force cores policy tasks.now records.old
        answer.old result records.new answer.new }
{
    jobs::job_tasks(Job::Force, cores, policy, false, tasks, records, answer)
}
