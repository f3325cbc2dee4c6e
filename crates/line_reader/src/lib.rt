// One line of a plan: its frame, then its fields. The digit table is lent by the caller.
#![tactic(auto)]

ghost use Rattle.std.specs.Prelude.{◌≡◌, ◌≤◌, length};
ghost use Rattle.frames.specs.Digits.{Digits, digit_table};
ghost use Rattle.lines.specs.Form.{FormSized};
ghost use Rattle.lines.specs.Fields.{head_of, numbers_of, task_of};
ghost use Rattle.lines.specs.Reads.{head_read, task_read};

use lines::{Form, Head};
use table::Task;

// The head's numbers, from the part of its line after the kind byte.
fn head_fields(digits: &[u8; 256], part: &[u8]) -> Head
    requires { (digits.now ≡ digit_table) × (6 ≤ length part.now) }
    ensures { result ≡ numbers_of (head_of part.now) }
{
    Head {
        cores: digits::byte(digits, part, 0),
        policy: digits::byte(digits, part, 1),
        n: digits::byte(digits, part, 2) as usize,
    }
}

// The head line that the text starts with.
pub fn read_head(digits: &[u8; 256], text: &[u8], form: Form) -> Result<Head, u32>
    requires { (digits.now ≡ digit_table) × FormSized form }
    ensures { result ≡ head_read form text.now }
{
    if let Some(number) = frame_reader::frame_fault(digits, text, form.head.size, form.head.kind) {
        return Err(number);
    }
    let head = head_fields(digits, &text[2..]);
    if let Some(number) = table::head_fault(head.cores, head.policy, head.n) {
        return Err(number);
    }
    Ok(head)
}

// The task's numbers, from the part of its line after the kind byte. It holds no level, which is handed in.
fn task_fields(digits: &[u8; 256], part: &[u8], level: u32) -> Task
    requires { (digits.now ≡ digit_table) × ((26 ≤ length part.now) × Digits part.now 26) }
    ensures { result ≡ task_of level part.now }
{
    Task {
        flag: digits::byte(digits, part, 0),
        period: digits::word(digits, part, 1),
        cost: digits::word(digits, part, 5),
        deadline: digits::word(digits, part, 9),
        level,
    }
}

// The task line that the text starts with, as a task of the given level.
pub fn read_task(digits: &[u8; 256], text: &[u8], form: Form, level: u32) -> Result<Task, u32>
    requires { (digits.now ≡ digit_table) × FormSized form }
    ensures { result ≡ task_read form level text.now }
{
    if let Some(number) = frame_reader::frame_fault(digits, text, form.task.size, form.task.kind) {
        return Err(number);
    }
    let task = task_fields(digits, &text[2..], level);
    if let Some(number) = table::task_fault(task) {
        return Err(number);
    }
    Ok(task)
}
