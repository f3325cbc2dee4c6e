// The calls whose flat tables have five numbers a task: flag, T, C, D, level. Each does what its namesake
// does with four numbers a task, where the place is the level; a plan's lines hold no level.
ghost use Rattle.std.specs.Prelude.{true};
ghost use Rattle.planner.specs.declared.Job.TheVariants.{Test, Force};
ghost use Rattle.editions.specs.declared.Edition.TheVariants.{Second};
ghost use Rattle.edition_jobs.specs.Jobs.{TasksToldIn};
ghost use Rattle.fewest_jobs.specs.FewestTold.{TasksFewestTold};
ghost use Rattle.jobs.specs.Jobs.{TasksTold};
ghost use Rattle.wrote.specs.Wrote.{TasksWrote};

use editions::Edition;
use planner::Job;

// The test of cores, policy and a flat table.
#[unsafe(no_mangle)]
pub extern "C" fn eskihrum_flat_test_levels(
    cores: u32,
    policy: u32,
    tasks: &[u32],
    records: &mut [u32],
    answer: &mut [u32],
) -> u32
    ensures { TasksTold true Test cores policy tasks.now records.old
        answer.old result records.new answer.new }
{
    jobs::job_tasks(Job::Test, cores, policy, true, tasks, records, answer)
}

// Forcing of cores, policy and a flat table.
#[unsafe(no_mangle)]
pub extern "C" fn eskihrum_flat_force_levels(
    cores: u32,
    policy: u32,
    tasks: &[u32],
    records: &mut [u32],
    answer: &mut [u32],
) -> u32
    ensures { TasksTold true Force cores policy tasks.now records.old
        answer.old result records.new answer.new }
{
    jobs::job_tasks(Job::Force, cores, policy, true, tasks, records, answer)
}

// The test under the second edition.
#[unsafe(no_mangle)]
pub extern "C" fn eskihrum_flat_test_levels_2(
    cores: u32,
    policy: u32,
    tasks: &[u32],
    records: &mut [u32],
    answer: &mut [u32],
) -> u32
    ensures { TasksToldIn true Second Test cores policy tasks.now records.old
        answer.old result records.new answer.new }
{
    edition_jobs::job_tasks_in(
        Edition::Second,
        Job::Test,
        cores,
        policy,
        true,
        tasks,
        records,
        answer,
    )
}

// Forcing under the second edition.
#[unsafe(no_mangle)]
pub extern "C" fn eskihrum_flat_force_levels_2(
    cores: u32,
    policy: u32,
    tasks: &[u32],
    records: &mut [u32],
    answer: &mut [u32],
) -> u32
    ensures { TasksToldIn true Second Force cores policy tasks.now records.old
        answer.old result records.new answer.new }
{
    edition_jobs::job_tasks_in(
        Edition::Second,
        Job::Force,
        cores,
        policy,
        true,
        tasks,
        records,
        answer,
    )
}

// The fewest cores; the caller's number of cores is checked, and otherwise not used.
#[unsafe(no_mangle)]
pub extern "C" fn eskihrum_flat_fewest_levels(
    cores: u32,
    policy: u32,
    tasks: &[u32],
    records: &mut [u32],
    answer: &mut [u32],
) -> u32
    ensures { TasksFewestTold true cores policy tasks.now records.old
        answer.old result records.new answer.new }
{
    fewest_jobs::fewest_tasks(cores, policy, true, tasks, records, answer)
}

// A flat table as a plan, from the place `start` of the buffer on; 1 where it is written. Last comes 18,
// where the levels are not 1, 2 and so on in table order: a plan's lines hold none.
#[unsafe(no_mangle)]
pub extern "C" fn eskihrum_flat_write_levels(
    cores: u32,
    policy: u32,
    tasks: &[u32],
    buffer: &mut [u8],
    start: usize,
    answer: &mut [u32],
) -> u32
    ensures { TasksWrote true cores policy tasks.now buffer.old start
        answer.old result buffer.new answer.new }
{
    wrote::write_tasks(cores, policy, true, tasks, buffer, start, answer)
}
