// The fewest cores for C and Rust: of a plan text and of a flat table. What is answered goes into a lent list
// of numbers, in the order of the crate told, with the number of cores in place 7, and the records into
// another.
#![tactic(auto)]

ghost use Rattle.std.specs.Prelude.{length};
ghost use Rattle.flat.specs.Flat.{Fits};
ghost use Rattle.fewest_jobs.specs.FewestTold.{FewestTold, PlanFewestTold, TasksFewestTold};

use fewest::Fewest;

// The answer, its cores and its records, each into its lent list; 1 where there is such a number of cores.
fn tell(records: &mut [u32], answer: &mut [u32], f: Fewest) -> u32
    requires { Fits f.done (length records.old) }
    ensures { FewestTold f records.old answer.old result records.new
        answer.new }
{
    let Fewest { done, cores } = f;
    let mut told = told::told_of(done.answer, done.count as u32, words::done_word(done));
    told[7] = cores;
    told::put_told(answer, told);
    flat::put_records(records, done);
    told[2]
}

// The fewest cores for a plan text.
pub fn fewest_plan(text: &[u8], records: &mut [u32], answer: &mut [u32]) -> u32
    ensures { PlanFewestTold text.now records.old answer.old result
        records.new answer.new }
{
    let f = fewest::plan_fewest(text, records.len() / 3);
    tell(records, answer, f)
}

// The fewest cores for a flat table: five numbers to a task where the levels are given, else four. The
// caller's number of cores is checked, and otherwise not used.
pub fn fewest_tasks(
    cores: u32,
    policy: u32,
    levels: bool,
    tasks: &[u32],
    records: &mut [u32],
    answer: &mut [u32],
) -> u32
    ensures { TasksFewestTold levels cores policy tasks.now records.old
        answer.old result records.new answer.new }
{
    let room = records.len() / 3;
    let n = flat_tasks::count_in(tasks.len(), levels);
    let list = flat_tasks::tasks_in(tasks, levels);
    let f = fewest::list_fewest(cores, policy, n, list, room);
    tell(records, answer, f)
}
