// The flags of an answer in one word, for a loader that keeps them so: bit 0 for task 1, a 1 for
// non-preemptive. Document 02, Wish 7.
#![tactic(auto)]

ghost use Rattle.std.specs.Prelude.{◌≡◌};
ghost use Rattle.words.specs.Word.{word_of_done};

use planner::Done;

// The word of an answer: bit i is set exactly if record i, of those that are written, has flag 0.
pub fn done_word(d: Done) -> u32
    ensures { result ≡ word_of_done d }
{
    let n = d.count.min(32);
    let mut flags = flags::NO_FLAGS;
    for i in 0..n {
        flags = flags::with_flag(flags, i, d.recs[i].flag);
    }
    flags::word_of(flags, n)
}
