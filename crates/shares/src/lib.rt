// One evaluation of a search: the sum of the shares at q, and what each share is sure to grow by from there.
// Two plain loops over rows that are lent: first the works, then the shares.
#![tactic(auto)]

ghost use Rattle.std.specs.Prelude.{◌≡◌, ◌+◌, ◌*◌, ◌≤◌};
ghost use Rattle.shares.specs.Shares.{full_of};
ghost use Rattle.shares.specs.Rows.{Workable, WorkRows, Sharable, Shared, Evaluable, Evaluated};

use window::Times;

// The sum of the shares, and the sum of their growths.
#[derive(Clone, Copy)]
pub struct Whole {
    pub sum: u32,
    pub all: u32,
}

// The work of the jobs begun in a window of `whole` periods and some quanta. With C = T the task never
// pauses: nothing in the range ends its growth.
fn full_of(rest: u32, cost: u32, whole: u32) -> u32
    requires { whole * cost + cost ≤ 4000000 }
    ensures { result ≡ full_of rest cost whole }
{
    if rest == 0 {
        2000000
    } else {
        whole * cost + cost
    }
}

// For each place the work of the jobs begun in its window, and the window without its pauses: the work is the
// least of the two.
fn work_rows(
    times: &Times,
    reach: &[u32; 32],
    used: usize,
    l: u32,
    full: &mut [u32; 32],
    line: &mut [u32; 32],
)
    requires { Workable times.now.inverse times.now.rest times.now.cost reach.now used l full.old line.old }
    ensures { WorkRows times.now.rest times.now.cost reach.now used l
        full.new line.new }
{
    for i in 0..used {
        let x = l + reach[i];
        let whole = window::jobs(x, times.inverse[i]);
        full[i] = full_of(times.rest[i], times.cost[i], whole);
        line[i] = x - whole * times.rest[i];
    }
}

// The shares at q are summed, and in the row of the full works each becomes the growth of its share.
fn share_row(line: &[u32; 32], cap: &[u32; 32], used: usize, q: u32, row: &mut [u32; 32]) -> Whole
    requires { Sharable cap.now used q row.old }
    ensures { Shared line.now cap.now used q row.old result
        row.new }
{
    let mut sum: u32 = 0;
    let mut all: u32 = 0;
    for i in 0..used {
        let top = row[i].min(cap[i]);
        let share = top.min(line[i]).min(q);
        let growth = top - share;
        row[i] = growth;
        sum += share;
        all += growth;
    }
    Whole { sum, all }
}

// The evaluation at q. `row` is left with the growths; `line` is room to work in.
pub fn evaluate(
    times: &Times,
    reach: &[u32; 32],
    cap: &[u32; 32],
    used: usize,
    ahead: u32,
    q: u32,
    row: &mut [u32; 32],
    line: &mut [u32; 32],
) -> Whole
    requires { Evaluable times.now.inverse times.now.rest times.now.cost reach.now cap.now used ahead q
        row.old line.old }
    ensures { Evaluated times.now.rest times.now.cost reach.now
        cap.now used ahead q result row.new line.new }
{
    work_rows(times, reach, used, q + ahead, row, line);
    share_row(line, cap, used, q, row)
}
