// The table as changed: a plan text is forced, and the plan of the sent table with the flags at the end of
// forcing is written into a buffer. Document 02, Wish 1.
#![tactic(auto)]

ghost use Rattle.std.specs.Prelude.{◌≡◌};
ghost use Rattle.table.specs.Table.{LegalTable};
ghost use Rattle.flags.specs.Flags.{flag_in};
ghost use Rattle.planner.specs.Answers.{record_at};
ghost use Rattle.changer.specs.Changed.{with_flags, Changes, ChangedAs, flags_in};
ghost use Rattle.changer.specs.Held.{table_in};

use flags::Flags;
use planner::{Answer, Done, Job, Record, Stop};
use rows::{Head, NO_ROWS, Rows};
use table::{NO_TASK, Table, Task};

// The table with the flags of the records, and zeros past its last task.
fn with_flags(t: Table, recs: [Record; 32]) -> Table
    requires { LegalTable t }
    ensures { result ≡ with_flags t (λ i. (record_at recs i).flag) }
{
    let mut tasks = [NO_TASK; 32];
    for i in 0..t.n {
        tasks[i] = Task {
            flag: recs[i].flag,
            ..t.tasks[i]
        };
    }
    Table { tasks, ..t }
}

// A table is written where forcing accepts; a refusal writes nothing, and the writer's have no passes.
fn write_by(answer: Answer, t: Table, out: &mut [u8], at: usize) -> Result<usize, Stop>
    ensures { Changes answer t out.old at result out.new }
{
    answer?;
    Ok(writer::write_plan(t, out, at)?)
}

// A table that was forced, with the flags of its records.
pub fn write_done(t: Table, done: Done, out: &mut [u8], at: usize) -> Result<usize, Stop>
    requires { LegalTable t }
    ensures { Changes done.answer (with_flags t (flags_in done)) out.old at result
        out.new }
{
    write_by(done.answer, with_flags(t, done.recs), out, at)
}

// The table of the rows, with these flags.
fn table_in(rows: &Rows, flags: Flags) -> Table
    ensures { result ≡ table_in rows.now.head rows.now.times.rest rows.now.times.cost rows.now.reach
        (flag_in flags) }
{
    let Head {
        policy,
        cores,
        n,
        levels,
    } = rows.head;
    let mut tasks = [NO_TASK; 32];
    for i in 0..n {
        let cost = rows.times.cost[i];
        tasks[i] = Task {
            flag: flags::flag_at(flags, i),
            period: rows.times.rest[i] + cost,
            cost,
            deadline: rows.reach[i] + cost,
            level: rows::level_at(levels, i),
        };
    }
    Table {
        cores,
        policy,
        n,
        tasks,
    }
}

// The plan of a text as changed, from the place `at` of the buffer on. It refuses as forcing does, and then
// with 16; a refusal writes nothing.
pub fn write_changed(text: &[u8], out: &mut [u8], at: usize) -> Result<usize, Stop>
    ensures { ChangedAs text.now out.old at result out.new }
{
    let mut rows = NO_ROWS;
    let given = row_reader::load_plan(text, &mut rows)?;
    let mut bounds = [0u32; 32];
    let said = planner::rows_said(Job::Force, &rows, given, &mut bounds);
    write_by(said.answer, table_in(&rows, said.flags), out, at)
}
