// The digits of a plan line, and the bytes and words that they write.
#![tactic(auto)]

mod values;

ghost use Rattle.std.specs.Prelude.{◌≡◌, ◌+◌, ◌*◌, ◌≤◌, length};
ghost use Rattle.frames.specs.Digits.{digit_of, digit_table, byte_at, word_at, Digits};

// Each byte's digit value, by value: naming the constant copies its 256 bytes, so it is named once for a text
// and lent to all that read it.
pub fn digit_table() -> [u8; 256]
    ensures { result ≡ digit_table }
{
    values::DIGITS
}

// The digit value of a byte.
#[tactic(auto, using(frames::proofs::DigitLaws::table_digit))]
fn digit(digits: &[u8; 256], b: u8) -> u32
    requires { digits.now ≡ digit_table }
    ensures { result ≡ digit_of b }
{
    u32::from(digits[usize::from(b)])
}

// Byte i of a line, of its digits 2 i and 2 i + 1.
pub fn byte(digits: &[u8; 256], s: &[u8], i: usize) -> u32
    requires { (digits.now ≡ digit_table) × (2 * i + 2 ≤ length s.now) }
    ensures { result ≡ byte_at s.now i }
{
    let high = digit(digits, s[2 * i]);
    let low = digit(digits, s[2 * i + 1]);
    16 * high + low
}

// The bytes i to i + 3 as one number, highest first. Not by from_be_bytes: a byte is a u32 here, as one of no
// digits may be above 255.
pub fn word(digits: &[u8; 256], s: &[u8], i: usize) -> u32
    requires { (digits.now ≡ digit_table) × ((2 * i + 8 ≤ length s.now) × Digits s.now (2 * i + 8)) }
    ensures { result ≡ word_at s.now i }
{
    let a = byte(digits, s, i);
    let b = byte(digits, s, i + 1);
    let c = byte(digits, s, i + 2);
    let d = byte(digits, s, i + 3);
    16777216 * a + 65536 * b + 256 * c + d
}
