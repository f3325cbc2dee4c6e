// Writing a frame as the line of its digits: two to a byte, upper case, then the check byte and one byte 0A.
#![tactic(auto)]

ghost use Rattle.std.specs.Prelude.{◌≡◌, [], ◌∷◌, ◌+◌, ◌*◌, ◌<◌, ◌≤◌, length, take};
ghost use Rattle.buffer.specs.Put.{Put};
ghost use Rattle.frames.specs.Digits.{digit_text};
ghost use Rattle.frames.specs.Text.{bytes_text, line_text};

// The byte of a digit.
#[tactic(auto, unfolding(frames::specs::Digits::digit_text))]
fn letter(d: u8) -> u8
    requires { d < 16 }
    ensures { result ≡ digit_text d }
{
    if d < 10 { b'0' + d } else { b'A' - 10 + d }
}

// The two digits of a byte; the answer is the place after them.
pub fn put_byte(out: &mut [u8], at: usize, b: u8) -> usize
    requires { at + 2 ≤ length out.old }
    ensures { Put out.old at (bytes_text (b ∷ [])) result out.new }
{
    out[at] = letter(b / 16);
    out[at + 1] = letter(b % 16);
    at + 2
}

// The line of a frame goes to the start of what is lent. The frame is the first size bytes; its check is
// worked out here. The answer is the line's length.
pub fn put_line(out: &mut [u8], frame: [u8; 16], size: usize) -> usize
    requires { (size ≤ 16) × (2 * size + 3 ≤ length out.old) }
    ensures { Put out.old 0 (line_text (take size frame)) result out.new }
{
    let mut at = 0;
    let mut sum: u32 = 0;
    for &b in &frame[..size] {
        at = put_byte(out, at, b);
        sum += u32::from(b);
    }
    let check = (256 - sum % 256) % 256;
    let end = put_byte(out, at, check as u8);
    out[end] = b'\n';
    end + 1
}
