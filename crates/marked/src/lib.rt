// The marked schedules of document 01, A to K, with their results: a constant table of tables.
//
// `case_at` hands out entry k, counted from 0, where there is one. The table is proved as a
// whole: its results are those that the definitions give.
#![tactic(auto)]

ghost use Rattle.marked.specs.Marked.{MarkedTable, CaseAt};

use sets::Set;

// A marked schedule, with n = 4 and t = 3, and its results. Bit i - 1 of a reach is for process i. A
// decision is 0, 1 or 2 (none), and a process without one has round 0.
#[derive(Clone, Copy)]
pub struct Case {
    pub votes: [u8; 4],
    pub crashes: [u8; 4],
    pub reaches: [Set; 4],
    pub decisions: [u8; 4],
    pub rounds: [u8; 4],
    pub f: u8,
    pub first: u8,
    pub last: u8,
    pub messages: u16,
}

const CASES: [Case; 11] = [
    // A: no crash
    Case {
        votes: [1, 1, 1, 1],
        crashes: [0, 0, 0, 0],
        reaches: [0, 0, 0, 0],
        decisions: [1, 1, 1, 1],
        rounds: [2, 2, 2, 2],
        f: 0,
        first: 1,
        last: 2,
        messages: 36,
    },
    // B: process 1 votes 0
    Case {
        votes: [0, 1, 1, 1],
        crashes: [0, 0, 0, 0],
        reaches: [0, 0, 0, 0],
        decisions: [0, 0, 0, 0],
        rounds: [2, 2, 2, 2],
        f: 0,
        first: 1,
        last: 2,
        messages: 36,
    },
    // C: 1: 1/0000
    Case {
        votes: [1, 1, 1, 1],
        crashes: [1, 0, 0, 0],
        reaches: [0, 0, 0, 0],
        decisions: [2, 0, 0, 0],
        rounds: [0, 2, 2, 2],
        f: 1,
        first: 2,
        last: 2,
        messages: 27,
    },
    // D: 1: 1/0100
    Case {
        votes: [1, 1, 1, 1],
        crashes: [1, 0, 0, 0],
        reaches: [2, 0, 0, 0],
        decisions: [2, 0, 0, 0],
        rounds: [0, 3, 3, 3],
        f: 1,
        first: 2,
        last: 3,
        messages: 37,
    },
    // E: 1: 1/0110; 4: 2/0100; 2: 3/0000
    Case {
        votes: [1, 1, 1, 1],
        crashes: [1, 3, 0, 2],
        reaches: [6, 0, 0, 2],
        decisions: [2, 2, 1, 2],
        rounds: [0, 0, 4, 0],
        f: 3,
        first: 3,
        last: 4,
        messages: 24,
    },
    // F: as E, but 2: 3/0010
    Case {
        votes: [1, 1, 1, 1],
        crashes: [1, 3, 0, 2],
        reaches: [6, 4, 0, 2],
        decisions: [2, 2, 0, 2],
        rounds: [0, 0, 3, 0],
        f: 3,
        first: 3,
        last: 3,
        messages: 25,
    },
    // G: as E, 2 not crashing
    Case {
        votes: [1, 1, 1, 1],
        crashes: [1, 0, 0, 2],
        reaches: [6, 0, 0, 2],
        decisions: [2, 0, 0, 2],
        rounds: [0, 3, 3, 0],
        f: 2,
        first: 2,
        last: 3,
        messages: 30,
    },
    // H: 1: 3/0000
    Case {
        votes: [1, 1, 1, 1],
        crashes: [3, 0, 0, 0],
        reaches: [0, 0, 0, 0],
        decisions: [1, 1, 1, 1],
        rounds: [2, 2, 2, 2],
        f: 1,
        first: 2,
        last: 2,
        messages: 33,
    },
    // I: 1: 2/0111
    Case {
        votes: [1, 1, 1, 1],
        crashes: [2, 0, 0, 0],
        reaches: [14, 0, 0, 0],
        decisions: [2, 1, 1, 1],
        rounds: [0, 2, 2, 2],
        f: 1,
        first: 2,
        last: 2,
        messages: 33,
    },
    // J: 1: 4/0000
    Case {
        votes: [1, 1, 1, 1],
        crashes: [4, 0, 0, 0],
        reaches: [0, 0, 0, 0],
        decisions: [1, 1, 1, 1],
        rounds: [2, 2, 2, 2],
        f: 1,
        first: 2,
        last: 2,
        messages: 36,
    },
    // K: 1, 2, 3: 1/0000
    Case {
        votes: [1, 1, 1, 1],
        crashes: [1, 1, 1, 0],
        reaches: [0, 0, 0, 0],
        decisions: [2, 2, 2, 0],
        rounds: [0, 0, 0, 2],
        f: 3,
        first: 4,
        last: 2,
        messages: 9,
    },
];

// The table of A to K: its contract is the statement that covers it.
fn all_cases() -> [Case; 11]
    ensures marked { MarkedTable result }
{
    CASES
}

// Case k: 0 for A, 10 for K.
pub fn case_at(k: usize) -> Option<Case>
    ensures handed_out { CaseAt k result }
{
    all_cases().get(k).copied()
}
