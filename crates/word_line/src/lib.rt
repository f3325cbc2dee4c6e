// The line of a plan's flags after forcing: "word" and the word in eight hexadecimal digits, or the refusal's
// one line. It goes into a buffer that the caller lends. Document 02, Wish 7.
#![tactic(auto)]

ghost use Rattle.std.specs.Prelude.{◌≤◌, length};
ghost use Rattle.buffer.specs.Put.{Put};
ghost use Rattle.word_line.specs.WordLine.{word_line, WordListed};

use planner::Job;

// Every such line fits in so many bytes; it is the room of a listing.
pub const WORD_ROOM: usize = 2048;

// The line of a word, its highest byte first.
fn put_word(out: &mut [u8], word: u32) -> usize
    requires { 14 ≤ length out.old }
    ensures { Put out.old 0 (word_line word) result out.new }
{
    let a = page::put(out, 0, b"word ");
    let b = frame_writer::put_byte(out, a, (word / 16777216) as u8);
    let c = frame_writer::put_byte(out, b, (word / 65536 % 256) as u8);
    let d = frame_writer::put_byte(out, c, (word / 256 % 256) as u8);
    let e = frame_writer::put_byte(out, d, (word % 256) as u8);
    page::put(out, e, b"\n")
}

// The line of a plan text. The answer is the number of bytes written, 0 for want of room.
pub fn write_word(text: &[u8], out: &mut [u8]) -> usize
    ensures { WordListed text.now out.old result out.new }
{
    if out.len() < WORD_ROOM {
        return 0;
    }
    let done = planner::plan_done(text, Job::Force, 32);
    match done.answer {
        Ok(_) => put_word(out, words::done_word(done)),
        Err(stop) => refusal_line::put_refusal(
            out,
            0,
            stop.why.number,
            stop.why.place,
            stop.passes,
        ),
    }
}
