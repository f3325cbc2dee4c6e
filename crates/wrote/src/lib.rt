// The planner's writing for C and Rust: a plan into a lent buffer, and what is told of it into a lent list of
// numbers, the end place among them. Document 02, Wishes 1 and 8.
#![tactic(auto)]

ghost use Rattle.wrote.specs.Wrote.{TasksWrote, PlanChanged};

// Cores, policy and a flat table as a plan, from the place `start` of the buffer on; 1 where it is written. A
// task has five numbers where the levels are given, else four.
pub fn write_tasks(
    cores: u32,
    policy: u32,
    levels: bool,
    tasks: &[u32],
    buffer: &mut [u8],
    start: usize,
    answer: &mut [u32],
) -> u32
    ensures { TasksWrote levels cores policy tasks.now buffer.old start
        answer.old result buffer.new answer.new }
{
    let n = flat_tasks::count_in(tasks.len(), levels);
    let list = flat_tasks::tasks_in(tasks, levels);
    let w = writer::write_list(cores, policy, n, list, buffer, start);
    let told = told_plans::told_written(w);
    told::put_told(answer, told);
    told[2]
}

// The plan of a text as changed, from the place `start` of the buffer on; 1 where it is written.
pub fn write_changed(text: &[u8], buffer: &mut [u8], start: usize, answer: &mut [u32]) -> u32
    ensures { PlanChanged text.now buffer.old start answer.old result
        buffer.new answer.new }
{
    let c = changer::write_changed(text, buffer, start);
    let told = told_plans::told_changed(c);
    told::put_told(answer, told);
    told[2]
}
