// The fewest cores for a plan text and for a flat table. The answer goes into a lent list of numbers, the
// number of cores among them.
ghost use Rattle.std.specs.Prelude.{false};
ghost use Rattle.fewest_jobs.specs.FewestTold.{PlanFewestTold, TasksFewestTold};

// The fewest cores for a plan text; 1 where there is such a number.
#[unsafe(no_mangle)]
pub extern "C" fn eskihrum_flat_fewest_plan(
    text: &[u8],
    records: &mut [u32],
    answer: &mut [u32],
) -> u32
    ensures { PlanFewestTold text.now records.old answer.old result
        records.new answer.new }
{
    fewest_jobs::fewest_plan(text, records, answer)
}

// The fewest cores for a flat table; the caller's number of cores is checked, and otherwise not used.
#[unsafe(no_mangle)]
pub extern "C" fn eskihrum_flat_fewest_tasks(
    cores: u32,
    policy: u32,
    tasks: &[u32],
    records: &mut [u32],
    answer: &mut [u32],
) -> u32
    ensures { TasksFewestTold false cores policy tasks.now records.old
        answer.old result records.new answer.new }
{
    fewest_jobs::fewest_tasks(cores, policy, false, tasks, records, answer)
}
