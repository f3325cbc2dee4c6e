// The first and the last line of the listing. Document 01, "The listing".
#![tactic(auto)]

ghost use Rattle.std.specs.Prelude.{◌+◌, ◌≤◌, length};
ghost use Rattle.buffer.specs.Put.{Put};
ghost use Rattle.listing_lines.specs.Lines.{line_one, last_line};

// Line one: policy, cores, tasks.
#[tactic(auto, using(crate::proofs::LineLaws::line_one_length))]
pub fn put_line_one(out: &mut [u8], at: usize, policy: u32, cores: u32, n: u32) -> usize
    requires { at + length (line_one policy cores n) ≤ length out.old }
    ensures { Put out.old at (line_one policy cores n) result out.new }
{
    let a = page::put_either(out, at, policy, b"plan EDF", b"plan FP");
    let b = page::put_field(out, a, b" cores ", cores);
    let c = page::put_field(out, b, b" tasks ", n);
    page::put(out, c, b"\n")
}

// The last line: total load, forced count, passes.
#[tactic(auto, using(crate::proofs::LineLaws::last_length))]
pub fn put_last(out: &mut [u8], at: usize, total: u32, forced: u32, passes: u32) -> usize
    requires { at + length (last_line total forced passes) ≤ length out.old }
    ensures { Put out.old at (last_line total forced passes) result out.new }
{
    let a = page::put_field(out, at, b"total load ", total);
    let b = page::put_field(out, a, b" forced ", forced);
    let c = page::put_field(out, b, b" passes ", passes);
    page::put(out, c, b"\n")
}
