// The table as changed under edition 2: a plan text is forced, and the plan of the sent table with the flags
// at the end of forcing is written into a buffer. Document 02, Wishes 1 and 4.
#![tactic(auto)]

ghost use Rattle.round_changer.specs.RoundChanged.{ChangedAs2};

use planner::{Job, Stop};

// The plan of a text as changed, from the place `at` of the buffer on. It refuses as forcing does, and then
// with 16; a refusal writes nothing.
pub fn write_changed_2(text: &[u8], out: &mut [u8], at: usize) -> Result<usize, Stop>
    ensures { ChangedAs2 text.now out.old at result out.new }
{
    let reading = reader::read_plan(text);
    match reading.answer {
        Ok(()) => {
            let forced = edition_2::legal_second(reading.table, Job::Force);
            changer::write_done(reading.table, forced.done, out, at)
        }
        Err(why) => Err(Stop { why, passes: 0 }),
    }
}
