// The jump from a length that fails to the first at which the line can hold, if the shares only grow as they
// must. What has grown is concave, so a chord lies below it: where the line fails at both ends, it fails
// between them.
#![tactic(auto)]

ghost use Rattle.std.specs.Prelude.{◌≤◌};
ghost use Rattle.base.specs.Rows.{at};
ghost use Rattle.chord.specs.Jump.{GrownBefore, Over, Jumped};

// What the shares have grown by, one length before d: low, and d - 1 for each of `count` more.
#[derive(Clone, Copy)]
struct Grown {
    low: u32,
    count: u32,
}

fn grown_before(growth: &[u32; 32], used: usize, d: u32) -> Grown
    requires { (used ≤ 32) × (1 ≤ d) × (d ≤ 1000001) }
    ensures { GrownBefore (at growth.now) used d result }
{
    let mut low: u32 = 0;
    let mut count: u32 = 0;
    for &g in &growth[..used] {
        if g < d {
            low += g;
        } else {
            count += 1;
        }
    }
    Grown { low, count }
}

// How many lengths on the line can hold; `left` where it cannot before. `over` is how far the sum is above
// the line, `all` what the shares grow by in the end. It comes from above: while the line would hold one
// length before d, d falls to where the straight growth from there meets the line.
pub fn advance(growth: &[u32; 32], used: usize, m: u32, over: u32, all: u32, left: u32) -> u32
    requires { Over (at growth.now) used m over all left }
    ensures { Jumped (at growth.now) used m over left result }
{
    let mut d = ((over + all) / m + 1).min(left);
    // A loop: d jumps down, no range gives its values.
    loop {
        let g = grown_before(growth, used, d);
        let before = d - 1;
        if m * before <= over + g.low + g.count * before {
            break d;
        }
        d = (over + g.low) / (m - g.count) + 1;
    }
}
