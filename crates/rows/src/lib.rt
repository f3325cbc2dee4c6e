// A table in rows: what the searches need of each task, worked out once for a table and lent to each search.
#![tactic(auto)]

ghost use Rattle.std.specs.Prelude.{◌≡◌, ◌≤◌, ◌<◌};
ghost use Rattle.table.specs.Table.{LegalTable, LegalTask};
ghost use Rattle.rows.specs.Levels.{level_in, with_level, higher_at};
ghost use Rattle.rows.specs.Held.{LegalRows, RowsOf};

use table::{Table, Task};
use window::Times;

// The level of each task, by place: 1 is the highest.
#[derive(Clone, Copy)]
pub struct Levels {
    of: [u8; 32],
}

// Nothing stored: 0 at every place.
pub const NO_LEVELS: Levels = Levels { of: [0u8; 32] };

// What a table says besides its tasks.
#[derive(Clone, Copy)]
pub struct Head {
    pub policy: u32,
    pub cores: u32,
    pub n: usize,
    pub levels: Levels,
}

// A table in rows: what it says besides its tasks, their times, and D - C of each.
#[derive(Clone, Copy)]
pub struct Rows {
    pub head: Head,
    pub times: Times,
    pub reach: [u32; 32],
    ghost legal: { LegalRows head times.inverse times.rest times.cost reach },
}

// Rows of no task, to be filled.
pub const NO_ROWS: Rows = Rows {
    head: Head {
        policy: 0,
        cores: 1,
        n: 0,
        levels: NO_LEVELS,
    },
    times: Times {
        inverse: [0u64; 32],
        rest: [0u32; 32],
        cost: [0u32; 32],
    },
    reach: [0u32; 32],
};

// The level at a place.
pub fn level_at(levels: Levels, i: usize) -> u32
    requires { i < 32 }
    ensures { result ≡ level_in levels i }
{
    levels.of[i] as u32
}

// The levels, with another at one place.
pub fn with_level(levels: Levels, i: usize, level: u32) -> Levels
    requires { (i < 32) × (level ≤ 32) }
    ensures { result ≡ with_level levels i level }
{
    let mut of = levels.of;
    of[i] = level as u8;
    Levels { of }
}

// Whether task i counts as higher than task k: its level is smaller or equal.
pub fn higher(levels: Levels, k: usize, i: usize) -> bool
    requires { (k < 32) × (i < 32) }
    ensures { result ≡ higher_at levels k i }
{
    levels.of[i] <= levels.of[k]
}

impl Rows {
    ghost use Rattle.rows.specs.Whole.{RowsEmpty, Begun, Pushed, OnCores};

    // Rows of no task, and what the table says besides its tasks.
    pub fn begin(&mut self, policy: u32, cores: u32)
        requires { (RowsEmpty self.old) × (1 ≤ cores) × (cores ≤ 16) }
        ensures { Begun policy cores self.new }
    {
        self.head = Head {
            policy,
            cores,
            n: 0,
            levels: NO_LEVELS,
        };
    }

    // One task more, in the next place: the inverse of its period, T - C, C, D - C and its level.
    pub fn push(&mut self, t: Task)
        requires { (LegalTask t) × (self.old.head.n < 32) }
        ensures { Pushed self.old t self.new }
    {
        let i = self.head.n;
        self.times.inverse[i] = window::inverse_of(t.period);
        self.times.rest[i] = t.period - t.cost;
        self.times.cost[i] = t.cost;
        self.reach[i] = t.deadline - t.cost;
        self.head.levels = with_level(self.head.levels, i, t.level);
        self.head.n = i + 1;
    }

    // The same tasks on other cores.
    pub fn set_cores(&mut self, cores: u32)
        requires { (1 ≤ cores) × (cores ≤ 16) }
        ensures { OnCores self.old cores self.new }
    {
        self.head.cores = cores;
    }
}

// The rows of a table, in place of what was there: they are 700 bytes, too many to be handed on by value.
pub fn rows_of(t: Table, rows: &mut Rows)
    requires { LegalTable t }
    ensures { RowsOf t rows.new.times.inverse rows.new.times.rest rows.new.times.cost rows.new.reach
        rows.new.head }
{
    *rows = NO_ROWS;
    rows.begin(t.policy, t.cores);
    for i in 0..t.n {
        rows.push(t.tasks[i]);
    }
}
