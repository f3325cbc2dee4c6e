// The one line of a refused plan. Document 01, "The listing"; document 02, Wish 4.
#![tactic(auto)]

ghost use Rattle.std.specs.Prelude.{◌≡◌, ◌+◌, ◌≤◌, length};
ghost use Rattle.buffer.specs.Put.{Put};
ghost use Rattle.listing_lines.specs.Lines.{of_forcing, refusal_line};

// Whether forcing ends in this refusal.
#[tactic(auto, unfolding(listing_lines::specs::Lines::of_forcing))]
fn of_forcing(number: u32) -> bool
    ensures { result ≡ of_forcing number }
{
    matches!(number, 14 | 15)
}

// A refusal's line: number and place, and for 14 and 15 the passes.
#[tactic(auto, using(listing_lines::proofs::LineLaws::refusal_lengths))]
pub fn put_refusal(out: &mut [u8], at: usize, number: u32, place: u32, passes: u32) -> usize
    requires { at + length (refusal_line number place passes) ≤ length out.old }
    ensures { Put out.old at (refusal_line number place passes) result out.new }
{
    let a = page::put_field(out, at, b"refused ", number);
    let b = page::put_field(out, a, b" place ", place);
    if of_forcing(number) {
        let c = page::put_field(out, b, b" passes ", passes);
        return page::put(out, c, b"\n");
    }
    page::put(out, b, b"\n")
}
