// A function for each way to write a plan into a lent buffer: a flat table as a plan, and the plan of a text
// as changed. The answer goes into a lent list of numbers, the end place among them.
ghost use Rattle.std.specs.Prelude.{false};
ghost use Rattle.wrote.specs.Wrote.{TasksWrote, PlanChanged};

// Cores, policy and a flat table as a plan, from the place `start` of the buffer on; 1 where it is written.
#[unsafe(no_mangle)]
pub extern "C" fn eskihrum_flat_write_tasks(
    cores: u32,
    policy: u32,
    tasks: &[u32],
    buffer: &mut [u8],
    start: usize,
    answer: &mut [u32],
) -> u32
    ensures { TasksWrote false cores policy tasks.now buffer.old start
        answer.old result buffer.new answer.new }
{
    wrote::write_tasks(cores, policy, false, tasks, buffer, start, answer)
}

// The plan of a text as changed, from the place `start` of the buffer on; 1 where it is written.
#[unsafe(no_mangle)]
pub extern "C" fn eskihrum_flat_write_changed(
    text: &[u8],
    buffer: &mut [u8],
    start: usize,
    answer: &mut [u32],
) -> u32
    ensures { PlanChanged text.now buffer.old start answer.old result
        buffer.new answer.new }
{
    wrote::write_changed(text, buffer, start, answer)
}
