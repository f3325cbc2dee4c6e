// The m largest of numbers that rise with q, each from a q of its own on: their sum, and what they are sure
// to grow by. Plain rows, as in a search.
//
// Place i puts up min(most_i, q - wait_i), nothing before q is past wait_i.
#![tactic(auto)]

ghost use Rattle.std.specs.Prelude.{◌≡◌, ℕ, ◌≤◌, ◌<◌, length};
ghost use Rattle.base.specs.Rows.{at};
ghost use Rattle.risen.specs.Risen.{risen_at, more_of, Addable, Added, Risable, Risen};

use shares::Whole;

// What each place puts up at q.
fn risen_row(most: &[u32; 32], wait: &[u32; 32], n: usize, q: u32, x: &mut [u32; 32])
    requires { (n ≤ 32) × (length x.old ≡ 32) }
    ensures { (i : ℕ) → i < n
        → at x.new i ≡ risen_at most.now wait.now q i }
{
    for i in 0..n {
        x[i] = most[i].min(q.saturating_sub(wait[i]));
    }
}

// By how much the growth at a place is raised: what is kept there is sure to grow up to the most.
fn more_of(kept: u32, most: u32, growth: u32) -> u32
    ensures { result ≡ more_of kept most growth }
{
    if kept == 0 {
        return 0;
    }
    most.saturating_sub(kept).saturating_sub(growth)
}

// Adds what is kept to the sum, and raises the growths.
fn add_kept(
    most: &[u32; 32],
    kept: &[u32; 32],
    n: usize,
    before: Whole,
    row: &mut [u32; 32],
) -> Whole
    requires { Addable most.now kept.now n before row.old }
    ensures { Added most.now kept.now n before row.old result
        row.new }
{
    let Whole { mut sum, mut all } = before;
    for i in 0..n {
        let more = more_of(kept[i], most[i], row[i]);
        row[i] += more;
        sum += kept[i];
        all += more;
    }
    Whole { sum, all }
}

// Adds the m largest at q to a sum, and raises the growths of the places that they stand at.
pub fn add_risen(
    most: &[u32; 32],
    wait: &[u32; 32],
    n: usize,
    m: u32,
    q: u32,
    before: Whole,
    row: &mut [u32; 32],
) -> Whole
    requires { Risable most.now n before row.old }
    ensures { Risen most.now wait.now n m q before row.old result
        row.new }
{
    let mut x = [0u32; 32];
    let mut kept = [0u32; 32];
    risen_row(most, wait, n, q, &mut x);
    largest::keep_largest(&x, m, n, &mut kept);
    add_kept(most, &kept, n, before, row)
}
