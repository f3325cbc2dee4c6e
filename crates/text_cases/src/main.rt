// Many texts in one run. A case is a digit for what is asked (0 the reading, 1 the listing after forcing, 2
// the writing of a table, 3 the plan as changed), the length of its text in four decimal digits, a 0A, and
// the text. The answers go to standard output, one after the other.
#![tactic(auto)]

mod reading;
mod writing;

ghost use Rattle.std.specs.Prelude.{◌≤◌, IfSome, length};

// A digit's value. What is no digit counts as 10.
fn digit(b: u8) -> usize
    ensures { result ≤ 10 }
{
    usize::from(b.wrapping_sub(b'0').min(10))
}

// The length in a case's first line, at most 9,999.
fn size(head: &[u8; 6]) -> Option<usize>
    ensures { IfSome result (λ n. n ≤ 9999) }
{
    let n = 1000 * digit(head[1]) + 100 * digit(head[2]) + 10 * digit(head[3]) + digit(head[4]);
    (head[5] == b'\n' && n <= 9999).then_some(n)
}

// The listing of a text; whether it was written.
fn print(text: &[u8]) -> bool {
    let mut out = io::buffer();
    let n = listing::write_listing(text, &mut out);
    io::write_all(1, &out[..n])
}

// What is asked of a text; whether it was answered.
fn answer(asked: u8, text: &[u8]) -> bool {
    match asked {
        b'0' => reading::say(text),
        b'1' => print(text),
        b'2' => writing::say(text),
        b'3' => writing::say_changed(text),
        _ => {
            io::write_all(2, b"text_cases: a case does not say what is asked\n");
            false
        }
    }
}

// The text of a case, of n bytes, and its answer; whether there may be another case.
fn rest(asked: u8, text: &mut [u8], n: usize) -> bool
    requires { n ≤ length text.old }
{
    let came = io::read_full(0, &mut text[..n]);
    if came < n {
        io::write_all(2, b"text_cases: the input ends inside a case\n");
        return false;
    }
    answer(asked, &text[..n])
}

// One case; whether there may be another.
fn one() -> bool {
    let mut head = [0u8; 6];
    let got = io::read_full(0, &mut head);
    if got == 0 {
        return false;
    }
    let Some(n) = size(&head) else {
        io::write_all(2, b"text_cases: a case does not start with its length\n");
        return false;
    };
    let mut text = io::large_buffer();
    rest(head[0], &mut text, n)
}

// A loop has to end, and nothing says that the input does: so many turns at most.
fn main() {
    for _ in 0..1000000 {
        if !one() {
            return;
        }
    }
}
