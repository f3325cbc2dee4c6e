// The checks of a frame: refusals 1 to 4. The digit table is lent by the caller.
#![tactic(auto)]

ghost use Rattle.std.specs.Prelude.{◌≡◌, ◌*◌, ◌≤◌, ◌<◌, length};
ghost use Rattle.base.specs.Choice.{some_of};
ghost use Rattle.frames.specs.Digits.{digit_table, Digits, all_digits};
ghost use Rattle.frames.specs.Frames.{frame_sum, frame_fault};

// Whether the first n bytes are digits.
fn all_digits(digits: &[u8; 256], s: &[u8], n: usize) -> bool
    requires { (digits.now ≡ digit_table) × (n ≤ length s.now) }
    ensures { result ≡ all_digits s.now n }
{
    s[..n].iter().all(|&b| digits[usize::from(b)] < 16)
}

// The sum of the first n bytes of a line.
fn frame_sum(digits: &[u8; 256], s: &[u8], n: usize) -> u32
    requires { (digits.now ≡ digit_table) × ((n ≤ 16)
        × ((2 * n ≤ length s.now) × Digits s.now (2 * n))) }
    ensures { result ≡ frame_sum s.now n }
{
    let mut sum = 0;
    for i in 0..n {
        sum += digits::byte(digits, s, i);
    }
    sum
}

// Which of the refusals 1 to 4 the due line of this size and kind gets.
#[tactic(auto, unfolding(frames::specs::Frames::frame_fault), using(frames::proofs::DigitLaws::digits_right))]
pub fn frame_fault(digits: &[u8; 256], s: &[u8], size: usize, kind: u32) -> Option<u32>
    requires { (digits.now ≡ digit_table) × ((0 < size) × (size ≤ 16)) }
    ensures { result ≡ some_of (frame_fault s.now size kind) }
{
    let due = 2 * size;
    if s.len() <= due {
        return Some(1);
    }
    if !all_digits(digits, s, due) {
        return Some(2);
    }
    if s[due] != b'\n' {
        return Some(2);
    }
    if frame_sum(digits, s, size) % 256 != 0 {
        return Some(3);
    }
    if digits::byte(digits, s, 0) != kind {
        return Some(4);
    }
    None
}
