// A schedule in tables. What it says, and the rules that it keeps, are in specs/.
#![tactic(auto)]

use sets::Set;

// A schedule as a call takes it: n processes, the number t of crashes that the cluster bears, and for the process at
// place i its vote, its crash round and its reach. The tables may have any length, and hold anything.
#[derive(Clone, Copy)]
pub struct Tables<'a> {
    pub n: usize,
    pub t: usize,
    pub votes: &'a [u8],
    pub crashes: &'a [u8],
    pub reaches: &'a [Set],
}
