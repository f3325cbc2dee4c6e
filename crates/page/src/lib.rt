// Words and decimal numbers, written one after the other into a buffer that the caller lends.
#![tactic(auto)]

ghost use Rattle.std.specs.Prelude.{[], ◌∷◌, ◌++◌, ◌+◌, ◌<◌, ◌≤◌, length};
ghost use Rattle.buffer.specs.Put.{Put};
ghost use Rattle.page.specs.Decimal.{decimal};
ghost use Rattle.page.specs.Words.{either};

// The word goes to the place `at`; the answer is the place after it.
pub fn put(out: &mut [u8], at: usize, word: &[u8]) -> usize
    requires { at + length word.now ≤ length out.old }
    ensures { Put out.old at word.now result out.new }
{
    let end = at + word.len();
    out[at..end].copy_from_slice(word);
    end
}

// One digit.
fn put_digit(out: &mut [u8], at: usize, d: u32) -> usize
    requires { (d < 10) × (at < length out.old) }
    ensures { Put out.old at ((48 + d) ∷ []) result out.new }
{
    out[at] = (48 + d) as u8;
    at + 1
}

// A number's digits: those of its tenth part, and then the last one.
pub fn put_number(out: &mut [u8], at: usize, n: u32) -> usize
    requires { at + length (decimal n) ≤ length out.old }
    ensures { Put out.old at (decimal n) result out.new }
{
    if n < 10 {
        return put_digit(out, at, n);
    }
    let last = put_number(out, at, n / 10);
    put_digit(out, last, n % 10)
}

// A word, and then a number.
pub fn put_field(out: &mut [u8], at: usize, word: &[u8], n: u32) -> usize
    requires { at + length (word.now ++ decimal n) ≤ length out.old }
    ensures { Put out.old at (word.now ++ decimal n) result out.new }
{
    let next = put(out, at, word);
    put_number(out, next, n)
}

// One of two words: the first for the number 0, the second for any other.
pub fn put_either(out: &mut [u8], at: usize, n: u32, zero: &[u8], other: &[u8]) -> usize
    requires { at + length (either n zero.now other.now) ≤ length out.old }
    ensures { Put out.old at (either n zero.now other.now) result
        out.new }
{
    if n == 0 {
        put(out, at, zero)
    } else {
        put(out, at, other)
    }
}
