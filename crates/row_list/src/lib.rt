// A flat table of numbers into rows and flags: the checks 5 to 11 and 17 task by task, with no table between.
#![tactic(auto)]

ghost use Rattle.rows.specs.Whole.{RowsEmpty};
ghost use Rattle.row_list.specs.ListLoaded.{ListLoaded};

use flags::{Flags, NO_FLAGS};
use rows::Rows;
use table::Refusal;

// The table in rows: its flags, or the first fault with its place. A task has five numbers where the levels
// are given, else four.
pub fn load_list(
    cores: u32,
    policy: u32,
    levels: bool,
    tasks: &[u32],
    rows: &mut Rows,
) -> Result<Flags, Refusal>
    requires { RowsEmpty rows.old }
    ensures { ListLoaded levels cores policy tasks.now result rows.new }
{
    let n = flat_tasks::count_in(tasks.len(), levels);
    if let Some(number) = table::head_fault(cores, policy, n) {
        return Err(Refusal { number, place: 0 });
    }
    let mut given = NO_FLAGS;
    rows.begin(policy, cores);
    for i in 0..n {
        let task = flat_tasks::task_in(tasks, levels, i);
        if let Some(number) = table::task_fault(task) {
            return Err(Refusal {
                number,
                place: i as u32 + 1,
            });
        }
        rows.push(task);
        given = flags::with_flag(given, i, task.flag);
    }
    Ok(given)
}
