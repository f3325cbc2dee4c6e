// A table of tasks as C and Rust have it: four numbers to a task, with its place as level, or five, with the
// level last.
#![tactic(auto)]

ghost use Rattle.std.specs.Prelude.{◌≡◌, ◌<◌};
ghost use Rattle.base.specs.Rows.{at};
ghost use Rattle.flat_tasks.specs.FlatTasks.{count_in, task_in, tasks_in};

use table::{NO_TASK, Task};

// The number at a place, 0 past the end.
fn number_at(s: &[u32], i: usize) -> u32
    ensures { result ≡ at s.now i }
{
    s.get(i).copied().unwrap_or(0)
}

// The number of tasks: five numbers each where the levels are given, else four. What is missing of the last
// task counts as 0.
#[tactic(auto, unfolding(crate::specs::FlatTasks::count_in))]
pub fn count_in(numbers: usize, levels: bool) -> usize
    ensures { result ≡ count_in levels numbers }
{
    if levels {
        numbers.div_ceil(5)
    } else {
        numbers.div_ceil(4)
    }
}

// Task i of a flat table. Where it has four numbers its place is its level.
#[tactic(auto, unfolding(crate::specs::FlatTasks::task_in))]
pub fn task_in(s: &[u32], levels: bool, i: usize) -> Task
    requires { i < 32 }
    ensures { result ≡ task_in levels s.now i }
{
    let width = if levels { 5 } else { 4 };
    let start = width * i;
    Task {
        flag: number_at(s, start),
        period: number_at(s, start + 1),
        cost: number_at(s, start + 2),
        deadline: number_at(s, start + 3),
        level: if levels {
            number_at(s, start + 4)
        } else {
            i as u32 + 1
        },
    }
}

// The first 32 tasks of a flat table, zeros past its end.
pub fn tasks_in(s: &[u32], levels: bool) -> [Task; 32]
    ensures { result ≡ tasks_in levels s.now }
{
    let mut tasks = [NO_TASK; 32];
    for i in 0..count_in(s.len(), levels).min(32) {
        tasks[i] = task_in(s, levels, i);
    }
    tasks
}
