// Reading a plan into rows and flags: line by line as `front_reader` and `reader` do, with no table between.
#![tactic(auto)]

ghost use Rattle.std.specs.Prelude.{◌≡◌, ◌≤◌};
ghost use Rattle.frames.specs.Digits.{digit_table};
ghost use Rattle.lines.specs.Fields.{empty_table};
ghost use Rattle.lines.specs.Reads.{TasksDue, tasks_read};
ghost use Rattle.rows.specs.Whole.{RowsEmpty};
ghost use Rattle.row_reader.specs.RowsRead.{FrontLoaded, PlanLoaded};

use flags::{Flags, NO_FLAGS};
use lines::{FORM1, Form, Head};
use rows::Rows;
use table::Refusal;

// The task lines after the head line, and nothing after them.
fn load_tasks(
    digits: &[u8; 256],
    text: &[u8],
    form: Form,
    head: Head,
    rows: &mut Rows,
) -> Result<Flags, Refusal>
    requires { (digits.now ≡ digit_table) × (TasksDue form text.now (empty_table head))
        × (1 ≤ head.cores) × (head.cores ≤ 16) × (RowsEmpty rows.old) }
    ensures { FrontLoaded text.now (tasks_read form text.now (empty_table head)) result rows.new }
{
    let Head { cores, policy, n } = head;
    let start = 2 * form.head.size + 1;
    let line = 2 * form.task.size + 1;
    let mut given = NO_FLAGS;
    rows.begin(policy, cores);
    for i in 0..n {
        let place = i as u32 + 2;
        // These lines hold no level: task k, whose line has place k + 1, has level k.
        match line_reader::read_task(digits, &text[start + line * i..], form, place - 1) {
            Ok(task) => {
                rows.push(task);
                given = flags::with_flag(given, i, task.flag);
            }
            Err(number) => return Err(Refusal { number, place }),
        }
    }
    if start + line * n < text.len() {
        return Err(Refusal {
            number: 12,
            place: n as u32 + 2,
        });
    }
    Ok(given)
}

// A plan in rows: its flags, or the first fault with its place.
pub fn load_plan(text: &[u8], rows: &mut Rows) -> Result<Flags, Refusal>
    requires { RowsEmpty rows.old }
    ensures { PlanLoaded text.now result rows.new }
{
    let digits = digits::digit_table();
    match line_reader::read_head(&digits, text, FORM1) {
        Ok(head) => load_tasks(&digits, text, FORM1, head, rows),
        Err(number) => Err(Refusal { number, place: 1 }),
    }
}
