// The loads of document 02, wish 2: of one task, and of a table in all.
#![tactic(auto)]

ghost use Rattle.std.specs.Prelude.{◌≡◌, ◌≤◌, ◌<◌};
ghost use Rattle.table.specs.Table.{LegalTable};
ghost use Rattle.table.specs.Load.{load, total_load};

use table::Table;

// The load of a task, rounded up.
pub fn task_load(cost: u32, period: u32) -> u32
    requires { (cost ≤ 1000000) × (0 < period) × (period ≤ 1000000) }
    ensures { result ≡ load cost period }
{
    (1000 * cost).div_ceil(period)
}

// The sum of the tasks' loads.
pub fn total_load(t: Table) -> u32
    requires { LegalTable t }
    ensures { result ≡ total_load t }
{
    let mut total: u32 = 0;
    for task in &t.tasks[..t.n] {
        total += task_load(task.cost, task.period);
    }
    total
}
