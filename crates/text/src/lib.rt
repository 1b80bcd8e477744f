// The schedule text and the report as bytes: their definitions and what holds of them are in specs/. What the lines of a
// text say stands here, since the definitions name it.
#![tactic(auto)]

use sets::Set;

// The values of line 2: n processes, and the number t of crashes that the cluster bears.
#[derive(Clone, Copy)]
pub struct Sizes {
    pub n: usize,
    pub t: usize,
}

// The values of a process's line.
#[derive(Clone, Copy)]
pub struct Entry {
    pub vote: u8,
    pub crash: u8,
    pub reach: Set,
}
