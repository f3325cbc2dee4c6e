// The work of a task in a window, with no division: a window is multiplied by an inverse of the period, which
// is worked out once for a table, and 2^42 of the product are one whole period.
#![tactic(auto)]

ghost use Rattle.std.specs.Prelude.{◌≡◌, ◌+◌, ◌-◌, ◌≤◌, min};
ghost use Rattle.model.specs.Bound.{work_in};
ghost use Rattle.window.specs.Window.{inverse_of, whole_in, Windowed};

// What the works of a table's tasks are worked out from, by place: the inverse of T, T - C, and C.
#[derive(Clone, Copy)]
pub struct Times {
    pub inverse: [u64; 32],
    pub rest: [u32; 32],
    pub cost: [u32; 32],
}

// The least of two numbers. This and the next are the library's own, under a promise that a proof can name.
pub fn least_of(a: u32, b: u32) -> u32
    ensures { result ≡ min a b }
{
    a.min(b)
}

// How far a lies past b: 0 where it is not past it.
pub fn past(a: u32, b: u32) -> u32
    ensures { result ≡ a - b }
{
    a.saturating_sub(b)
}

// The inverse of a period.
pub fn inverse_of(period: u32) -> u64
    requires { 1 ≤ period }
    ensures { result ≡ inverse_of period }
{
    4398046511104 / (period as u64) + 1
}

// How many whole periods a window of x quanta has.
pub fn jobs(x: u32, inverse: u64) -> u32
    requires { (x ≤ 2000000) × (inverse ≤ 4398046511105) }
    ensures { result ≡ whole_in x inverse }
{
    ((x as u64) * inverse / 4398046511104) as u32
}

// The work in a window of x quanta. It pauses for `rest` quanta in each whole period, and is never more than
// that of the jobs begun.
pub fn work(inverse: u64, rest: u32, cost: u32, x: u32) -> u32
    requires { Windowed inverse rest cost x }
    ensures { result ≡ work_in (rest + cost) cost x }
{
    let whole = jobs(x, inverse);
    least_of(whole * cost + cost, x - whole * rest)
}
