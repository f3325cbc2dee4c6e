// Tasks and tables by value, and the checks 5 to 11 of document 01 in their order, with document 02's 17.
#![tactic(auto)]

ghost use Rattle.std.specs.Prelude.{◌≡◌};
ghost use Rattle.base.specs.Choice.{some_of};
ghost use Rattle.table.specs.Checks.{outside, head_fault, task_fault, check_of};

// A task as it is given: any numbers, so that a wrong one can be named.
#[derive(Clone, Copy)]
pub struct Task {
    pub flag: u32,
    pub period: u32,
    pub cost: u32,
    pub deadline: u32,
    pub level: u32,
}

// A table of the first n of its tasks.
#[derive(Clone, Copy)]
pub struct Table {
    pub cores: u32,
    pub policy: u32,
    pub n: usize,
    pub tasks: [Task; 32],
}

// What stands in the places past the last task.
pub const NO_TASK: Task = Task {
    flag: 0,
    period: 0,
    cost: 0,
    deadline: 0,
    level: 0,
};

// A refusal: document 01's number, and its place. The number is a u32 and no enum: document 01 gives refusals
// by number, and the C interface and the theorems of the front page have these numbers.
#[derive(Clone, Copy)]
pub struct Refusal {
    pub number: u32,
    pub place: u32,
}

// Whether x is none of lo .. hi.
fn outside(lo: u32, hi: u32, x: u32) -> bool
    ensures { result ≡ outside lo hi x }
{
    !(lo..=hi).contains(&x)
}

// The first of the faults 5, 6, 7.
#[tactic(auto, unfolding(crate::specs::Checks::head_fault))]
pub fn head_fault(cores: u32, policy: u32, n: usize) -> Option<u32>
    ensures { result ≡ some_of (head_fault cores policy n) }
{
    if outside(1, 16, cores) {
        return Some(5);
    }
    if outside(0, 1, policy) {
        return Some(6);
    }
    if !(1..=32).contains(&n) {
        return Some(7);
    }
    None
}

// The first of the faults 8, 9, 10, 11, 17.
#[tactic(auto, unfolding(crate::specs::Checks::task_fault))]
pub fn task_fault(t: Task) -> Option<u32>
    ensures { result ≡ some_of (task_fault t) }
{
    if outside(0, 1, t.flag) {
        return Some(8);
    }
    if outside(1, 1000000, t.period) {
        return Some(9);
    }
    if outside(1, t.period, t.deadline) {
        return Some(10);
    }
    if outside(1, t.deadline, t.cost) {
        return Some(11);
    }
    if outside(1, 32, t.level) {
        return Some(17);
    }
    None
}

// The checks 5 to 11 and 17 of a whole table: its numbers first, then task by task. The first fault has the
// task's number as place, and 0 for 5, 6, 7.
pub fn check_table(t: Table) -> Result<(), Refusal>
    ensures { result ≡ check_of t }
{
    if let Some(number) = head_fault(t.cores, t.policy, t.n) {
        return Err(Refusal { number, place: 0 });
    }
    for i in 0..t.n {
        if let Some(number) = task_fault(t.tasks[i]) {
            return Err(Refusal {
                number,
                place: i as u32 + 1,
            });
        }
    }
    Ok(())
}
