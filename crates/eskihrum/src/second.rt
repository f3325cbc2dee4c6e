// A function for each job under the second edition, on a plan text and on a flat table: the numbers of the
// answer in the same order as under the first, and the round count among them.
ghost use Rattle.std.specs.Prelude.{false};
ghost use Rattle.planner.specs.declared.Job.TheVariants.{Test, Force};
ghost use Rattle.editions.specs.declared.Edition.TheVariants.{Second};
ghost use Rattle.edition_jobs.specs.Jobs.{PlanToldIn, TasksToldIn};

use editions::Edition;
use planner::Job;

// The test of a plan text.
#[unsafe(no_mangle)]
pub extern "C" fn eskihrum_flat_test_plan_2(
    text: &[u8],
    records: &mut [u32],
    answer: &mut [u32],
) -> u32
    ensures { PlanToldIn Second Test text.now records.old answer.old result
        records.new answer.new }
{
    edition_jobs::job_plan_in(Edition::Second, Job::Test, text, records, answer)
}

// Forcing of a plan text.
#[unsafe(no_mangle)]
pub extern "C" fn eskihrum_flat_force_plan_2(
    text: &[u8],
    records: &mut [u32],
    answer: &mut [u32],
) -> u32
    ensures { PlanToldIn Second Force text.now records.old
        answer.old result records.new answer.new }
{
    edition_jobs::job_plan_in(Edition::Second, Job::Force, text, records, answer)
}

// The test of cores, policy and a flat table.
#[unsafe(no_mangle)]
pub extern "C" fn eskihrum_flat_test_tasks_2(
    cores: u32,
    policy: u32,
    tasks: &[u32],
    records: &mut [u32],
    answer: &mut [u32],
) -> u32
    ensures { TasksToldIn false Second Test cores policy tasks.now records.old
        answer.old result records.new answer.new }
{
    edition_jobs::job_tasks_in(
        Edition::Second,
        Job::Test,
        cores,
        policy,
        false,
        tasks,
        records,
        answer,
    )
}

// Forcing of cores, policy and a flat table.
#[unsafe(no_mangle)]
pub extern "C" fn eskihrum_flat_force_tasks_2(
    cores: u32,
    policy: u32,
    tasks: &[u32],
    records: &mut [u32],
    answer: &mut [u32],
) -> u32
    ensures { TasksToldIn false Second Force cores policy tasks.now records.old
        answer.old result records.new answer.new }
{
    edition_jobs::job_tasks_in(
        Edition::Second,
        Job::Force,
        cores,
        policy,
        false,
        tasks,
        records,
        answer,
    )
}
