// The flags of a table in one word: bit i is 1 where task i + 1 is non-preemptive, and 0 from bit n up. The
// failing tasks of a test are held in the same way: a 1 where a task has no bound. Both are read by place: 0
// where the bit is 1, and 1 where it is 0.
#![tactic(auto)]

ghost use Rattle.std.specs.Prelude.{◌≡◌, ◌-◌, ◌≤◌, ◌<◌, min, eqb};
ghost use Rattle.base.specs.Choice.{pick};
ghost use Rattle.base.specs.Sums.{sum_to};
ghost use Rattle.base.specs.Least.{first_of};
ghost use Rattle.base.specs.Rows.{at};
ghost use Rattle.model.specs.Forcing.{lacks};
ghost use Rattle.table.specs.Table.{flags_of, LegalTable};
ghost use Rattle.flags.specs.Words.{clear, word_of};
ghost use Rattle.flags.specs.Flags.{flag_in, held, changed, last_to};

use table::Table;

#[derive(Clone, Copy)]
pub struct Flags {
    word: u32,
}

// Nothing held: every place reads 1.
pub const NO_FLAGS: Flags = Flags { word: 0 };

// The flag at a place.
pub fn flag_at(flags: Flags, i: usize) -> u32
    requires { i < 32 }
    ensures { result ≡ flag_in flags i }
{
    1 - (flags.word >> i) % 2
}

// The word with a 1 at a place where x is 0.
fn marked(word: u32, i: usize, x: u32) -> u32
    requires { i < 32 }
    ensures { result ≡ word_of (λ j. pick (eqb j i) (min x (clear word j)) (clear word j)) 32 }
{
    if x == 0 { word | (1u32 << i) } else { word }
}

// The flags, with 0 at a place where x is 0.
pub fn with_flag(flags: Flags, i: usize, x: u32) -> Flags
    requires { i < 32 }
    ensures { result ≡ held (λ j. pick (eqb j i) (min x (flag_in flags j)) (flag_in flags j)) 32 }
{
    Flags {
        word: marked(flags.word, i, x),
    }
}

// The flags of the table as sent.
pub fn flags_of(t: Table) -> Flags
    requires { LegalTable t }
    ensures { result ≡ held (at (flags_of t)) t.n }
{
    let mut flags = NO_FLAGS;
    for (i, task) in t.tasks[..t.n].iter().enumerate() {
        flags = with_flag(flags, i, task.flag);
    }
    flags
}

// The tasks without a bound, among the first n.
pub fn failing_of(n: usize, bounds: &[u32; 32]) -> Flags
    requires { n ≤ 32 }
    ensures { result ≡ held (at bounds.now) n }
{
    let mut failing = NO_FLAGS;
    for (i, &bound) in bounds[..n].iter().enumerate() {
        failing = with_flag(failing, i, bound);
    }
    failing
}

// The flags, with every failing task made non-preemptive.
pub fn with_failing(flags: Flags, failing: Flags) -> Flags
    ensures { result ≡ held (λ i. flag_in flags i - lacks (flag_in flags i) (flag_in failing i)) 32 }
{
    Flags {
        word: flags.word | failing.word,
    }
}

// The number of the last preemptive task that fails, and 0 for none.
pub fn last_lacking(flags: Flags, failing: Flags) -> usize
    ensures { result ≡ last_to (λ i. lacks (flag_in flags i) (flag_in failing i)) 32 }
{
    (32 - u32::leading_zeros(failing.word & !flags.word)) as usize
}

// 1 where a flag was changed, 0 where it was not.
pub fn change(before: u32, after: u32) -> u32
    ensures { result ≡ changed before after }
{
    u32::from(before != after)
}

// The word of the first n flags, for who holds such a word: zeros from bit n up, for n = 32 too.
pub fn word_of(flags: Flags, n: usize) -> u32
    requires { n ≤ 32 }
    ensures { result ≡ word_of (flag_in flags) n }
{
    ((flags.word as u64) % (1u64 << n)) as u32
}

// At how many places two hold different flags.
pub fn count_changed(before: Flags, after: Flags) -> u32
    ensures { result ≡ sum_to (λ i. changed (flag_in before i) (flag_in after i)) 32 }
{
    u32::count_ones(before.word ^ after.word)
}

// The number of the lowest failing task, and 0 for none.
pub fn lowest_failing(failing: Flags) -> u32
    ensures { result ≡ first_of (λ i. eqb (flag_in failing i) 0) 32 }
{
    if failing.word == 0 {
        return 0;
    }
    u32::trailing_zeros(failing.word) + 1
}
