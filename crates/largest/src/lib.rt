// The m largest numbers of a row, chosen once: what they sum to under a cap is what the m largest sum to
// under that cap, whatever the cap is.
#![tactic(auto)]

ghost use Rattle.std.specs.Prelude.{◌≤◌, ◌≡◌, length, replicate};
ghost use Rattle.base.specs.Rows.{at};
ghost use Rattle.largest.specs.Largest.{Largest, MostLeft};

// The place of the largest number that is not kept yet, and n where no number above 0 is left.
fn largest_left(x: &[u32; 32], n: usize, kept: &[u32; 32]) -> usize
    requires { n ≤ 32 }
    ensures { MostLeft (at x.now) (at kept.now) n result }
{
    let mut most: u32 = 0;
    let mut place = n;
    for i in 0..n {
        if kept[i] == 0 && most < x[i] {
            most = x[i];
            place = i;
        }
    }
    place
}

// Keeps m of the largest of the first n numbers, all those above 0 where there are fewer, in an empty row.
pub fn keep_largest(x: &[u32; 32], m: u32, n: usize, kept: &mut [u32; 32])
    requires { (n ≤ 32) × (kept.old ≡ replicate 32 0) }
    ensures { (length kept.new ≡ 32)
        × (Largest (at x.now) (at kept.new) m n) }
{
    for _ in 0..m {
        let place = largest_left(x, n, kept);
        if n <= place {
            return;
        }
        kept[place] = x[place];
    }
}
