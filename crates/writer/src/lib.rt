// Writing a plan: the checks of a table, the room that its text needs, whether its levels are its places, the
// head line and then the task lines. Document 02, Wishes 1 and 8.
#![tactic(auto)]

ghost use Rattle.std.specs.Prelude.{◌≡◌, take};
ghost use Rattle.table.specs.Table.{LegalTable};
ghost use Rattle.lines.specs.Form.{form1};
ghost use Rattle.lines.specs.Writes.{head_bytes, plan_text, unplaced};
ghost use Rattle.writer.specs.Written.{table_from, TextPut, WroteAs};

use table::{Refusal, Table, Task};

// The frame of the head line without its check: its first 4 bytes.
fn head_frame(t: Table) -> [u8; 16]
    requires { LegalTable t }
    ensures { take 4 result ≡ head_bytes form1 t }
{
    let cores = t.cores as u8;
    let policy = t.policy as u8;
    [
        1, cores, policy, t.n as u8, 0, 0, 0, 0, 0, 0, 0, 0, 0, 0, 0, 0,
    ]
}

// A legal table's text; or 16 where there is too little room for it, and then 18 where its levels are not its
// places: the lines hold none. The start may be any number.
fn put_text(t: Table, out: &mut [u8], at: usize) -> Result<usize, Refusal>
    requires { LegalTable t }
    ensures { TextPut (unplaced t) (plan_text t) out.old at result out.new }
{
    let room = out.len().saturating_sub(at);
    if room < 11 + 31 * t.n {
        return Err(Refusal {
            number: 16,
            place: 0,
        });
    }
    if lines_writer::unplaced(t).is_some() {
        return Err(Refusal {
            number: 18,
            place: 0,
        });
    }
    let first = frame_writer::put_line(&mut out[at..], head_frame(t), 4);
    Ok(lines_writer::put_tasks(out, at + first, t))
}

// The plan of a table, from the place `at` of the buffer on: the place after its last line, or a refusal, 5
// to 11 and 17, or 16, or 18. A refusal writes nothing; else the bytes before the place and those after the
// end stay.
pub fn write_plan(t: Table, out: &mut [u8], at: usize) -> Result<usize, Refusal>
    ensures { WroteAs t out.old at result out.new }
{
    table::check_table(t)?;
    put_text(t, out, at)
}

// The same of a list of n tasks, of which those past the 32nd are not there.
pub fn write_list(
    cores: u32,
    policy: u32,
    n: usize,
    tasks: [Task; 32],
    out: &mut [u8],
    at: usize,
) -> Result<usize, Refusal>
    ensures { WroteAs (table_from cores policy n tasks) out.old at result out.new }
{
    let t = Table {
        cores,
        policy,
        n,
        tasks,
    };
    write_plan(t, out, at)
}
