// The desk: what is asked of a plan, or of a table that people typed, with read and write alone. Document 02,
// Wishes 1, 4, 5, 7 and 8.
//
// Standard input: one line that says what is asked, and then the bytes.
//
//   test    a plan      its listing as sent, by the test (crate test_listing):
//                         plan FP cores 1 tasks 2
//                         task 1 P bound 4 deadline 12 load 334
//                         task 2 P none deadline 18 load 375
//                         total load 709 answer no
//   cores   a plan      the fewest cores, and the listing with them (crate fewest_listing): a line, as
//                         fewest 2
//                       and then what the plan printer writes of the plan with 2 in its head
//   word    a plan      the flags after forcing in one word (crate word_line), a line, as
//                         word 00000003
//   apply   a plan      the plan as changed by forcing (crate changer), in plan lines
//   list2, test2, apply2
//           a plan      under edition 2: its listing after forcing, its listing as sent, the plan as changed
//   show    a plan      its numbers: a line "cores policy n", then a line "flag T C D" for each task
//   make    numbers     such numbers as plan lines (crate writer)
//
// A refusal is one line, as "refused 9 place 3"; for 14 and 15 the passes follow, as "refused 14 place 1
// passes 2".
// Under make the place is the task's number, and 0 for 5, 6, 7 and 18: plan lines hold no level, so that they
// have to be 1, 2 and so on in table order.
//
// The numbers of make are decimal, parted by spaces and 0A: cores, policy, n, and then a line for each of n
// tasks, flag T C D and perhaps its level, without which its place counts. Each number from 4,294,967,290 on
// counts as 4,294,967,295: no number so large is in any range. Where n is above 32, what follows it is not
// looked at.
//
// Of a plan at most the first 1,004 bytes count, as for the plan printer, and so many always fit. What is no
// such input gives nothing on standard output, and a line on standard error.
#![tactic(auto)]

mod second;
mod show;
mod typed;

ghost use Rattle.std.specs.Prelude.{◌<◌, ◌≤◌, IfOk, IfSome, length};

use std::io::{Error, Read};

// Reads until the buffer is full, the input ends or a read fails, and says how many bytes were read.
fn read_input<R: Read>(from: &mut R, text: &mut [u8]) -> Result<usize, Error>
    ensures { IfOk result (λ n. n ≤ length text.new) }
{
    let mut count = 0;
    // A while: count goes up by what each read gives.
    while count < text.len() {
        let more = from.read(&mut text[count..])?;
        if more == 0 {
            break;
        }
        count += more;
    }
    Ok(count)
}

// A refusal's line.
fn refuse(number: u32, place: u32, passes: u32) {
    let mut out = io::buffer();
    let n = refusal_line::put_refusal(&mut out, 0, number, place, passes);
    io::write_all(1, &out[..n]);
}

// The listing of a plan as sent.
fn test(text: &[u8]) {
    let mut out = io::buffer();
    let n = test_listing::write_test(text, &mut out);
    io::write_all(1, &out[..n]);
}

// The fewest cores, and the listing with them.
fn cores(text: &[u8]) {
    let mut out = io::buffer();
    let n = fewest_listing::write_fewest(text, &mut out);
    io::write_all(1, &out[..n]);
}

// The flags after forcing in one word.
fn word(text: &[u8]) {
    let mut out = io::buffer();
    let n = word_line::write_word(text, &mut out);
    io::write_all(1, &out[..n]);
}

// The plan as changed.
fn apply(text: &[u8]) {
    let mut out = io::buffer();
    match changer::write_changed(text, &mut out, 0) {
        Ok(end) => {
            io::write_all(1, &out[..end]);
        }
        Err(stop) => refuse(stop.why.number, stop.why.place, stop.passes),
    }
}

// The numbers of a table as plan lines.
fn make(text: &[u8]) {
    let Some(t) = typed::table_in(text) else {
        io::write_all(2, b"desk: these are not the numbers of a table\n");
        return;
    };
    let mut out = io::buffer();
    match writer::write_plan(t, &mut out, 0) {
        Ok(end) => {
            io::write_all(1, &out[..end]);
        }
        Err(why) => refuse(why.number, why.place, 0),
    }
}

// Where the first line ends: the place of its 0A.
fn line_end(s: &[u8]) -> Option<usize>
    ensures { IfSome result (λ n. n < length s.now) }
{
    s.iter().position(|b| *b == b'\n')
}

fn usage() {
    io::write_all(
        2,
        b"desk: the first line is none of test, cores, word, apply, show, make, list2, test2, apply2\n",
    );
}

// What is asked of the bytes after the first line.
fn answer(s: &[u8]) {
    let Some(n) = line_end(s) else {
        usage();
        return;
    };
    let text = &s[n + 1..];
    match &s[..n] {
        b"test" => test(text),
        b"cores" => cores(text),
        b"word" => word(text),
        b"apply" => apply(text),
        b"list2" => second::list(text),
        b"test2" => second::test(text),
        b"apply2" => second::apply(text),
        b"show" => show::show(text),
        b"make" => make(text),
        _ => usage(),
    }
}

fn main(rt: HostRuntime) {
    let mut text = io::buffer();
    let mut from = rt.stdin();
    match read_input(&mut from, &mut text) {
        Ok(n) => answer(&text[..n]),
        Err(_) => {
            io::write_all(2, b"desk: standard input could not be read\n");
        }
    }
}
