// The lines of a plan, as they are passed on. Beside these types the crate has definitions and their laws.
// The code that reads plans is in `line_reader`, `front_reader` and `reader`, the code that writes them in
// `writer`.
#![tactic(auto)]

use table::{NO_TASK, Refusal, Table};

// The kind of a frame, and its bytes with kind and check.
#[derive(Clone, Copy)]
pub struct Frame {
    pub kind: u32,
    pub size: usize,
}

// The form of a plan: the frames of its lines.
#[derive(Clone, Copy)]
pub struct Form {
    pub head: Frame,
    pub task: Frame,
}

// The numbers of a head line.
#[derive(Clone, Copy)]
pub struct Head {
    pub cores: u32,
    pub policy: u32,
    pub n: usize,
}

// The front of a text: fine with the table of its head and task lines and the place where they end, or the
// first fault with its place, a table of zeros and the end 0.
// A record, not a Result with the table in it: the theorems say of a refused text's table that it is zeros.
#[derive(Clone, Copy)]
pub struct Front {
    pub answer: Result<(), Refusal>,
    pub table: Table,
    pub end: usize,
}

// Fine with the table that was read, or the first fault with its place and a table of zeros.
// A record, not a Result with the table in it: the theorems say of a refused text's table that it is zeros.
#[derive(Clone, Copy)]
pub struct Reading {
    pub answer: Result<(), Refusal>,
    pub table: Table,
}

// Document 01's form.
pub const FORM1: Form = Form {
    head: Frame { kind: 1, size: 5 },
    task: Frame { kind: 2, size: 15 },
};

pub const NO_TABLE: Table = Table {
    cores: 0,
    policy: 0,
    n: 0,
    tasks: [NO_TASK; 32],
};
