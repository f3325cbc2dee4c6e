// The front of a plan: its head line, then its task lines, from any bytes to a table by value or the first
// fault with its place.
#![tactic(auto)]

ghost use Rattle.std.specs.Prelude.{◌≡◌};
ghost use Rattle.frames.specs.Digits.{digit_table};
ghost use Rattle.lines.specs.Fields.{empty_table};
ghost use Rattle.lines.specs.Reads.{stopped, TasksDue, tasks_read, front_of};

use lines::{FORM1, Form, Front, Head, NO_TABLE};
use table::{NO_TASK, Refusal, Table};

fn stopped(number: u32, place: u32) -> Front
    ensures { result ≡ stopped number place }
{
    Front {
        answer: Err(Refusal { number, place }),
        table: NO_TABLE,
        end: 0,
    }
}

// The task lines after the head line.
fn read_tasks(digits: &[u8; 256], text: &[u8], form: Form, head: Head) -> Front
    requires { (digits.now ≡ digit_table) × TasksDue form text.now (empty_table head) }
    ensures { result ≡ tasks_read form text.now (empty_table head) }
{
    let Head { cores, policy, n } = head;
    let start = 2 * form.head.size + 1;
    let line = 2 * form.task.size + 1;
    // Zeros in all places: the tasks that are read take the first n.
    let mut tasks = [NO_TASK; 32];
    for i in 0..n {
        let place = i as u32 + 2;
        // These lines hold no level: task k, whose line has place k + 1, has level k.
        match line_reader::read_task(digits, &text[start + line * i..], form, place - 1) {
            Ok(task) => tasks[i] = task,
            Err(number) => return stopped(number, place),
        }
    }
    Front {
        answer: Ok(()),
        table: Table {
            cores,
            policy,
            n,
            tasks,
        },
        end: start + line * n,
    }
}

// The plan that a text starts with; what follows it is not looked at.
pub fn read_front(text: &[u8]) -> Front
    ensures { result ≡ front_of text.now }
{
    let digits = digits::digit_table();
    match line_reader::read_head(&digits, text, FORM1) {
        Ok(head) => read_tasks(&digits, text, FORM1, head),
        Err(number) => stopped(number, 1),
    }
}
