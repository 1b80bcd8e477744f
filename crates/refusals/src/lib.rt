// The refused schedules of document 01, "Marked schedules", with the questions that refuse them: a constant
// table of tables.
//
// `refusal_at` hands out entry k, counted from 0, where there is one. The table is proved as a whole: the
// questions have the numbers that the definitions give.
#![tactic(auto)]

ghost use Rattle.refusals.specs.Refused.{RefusedTable, RefusalAt};

use laws::Question;
use sets::Set;

// A schedule of n processes, in the first n places of its tables, and what its questions answer: all but one
// of the table are refused.
#[derive(Clone, Copy)]
pub struct Refusal {
    pub n: usize,
    pub t: usize,
    pub votes: [u8; 4],
    pub crashes: [u8; 4],
    pub reaches: [Set; 4],
    pub answer: Result<(), Question>,
}

const REFUSED: [Refusal; 6] = [
    // n = 3 with a vote 2
    Refusal {
        n: 3,
        t: 3,
        votes: [2, 1, 1, 0],
        crashes: [0, 0, 0, 0],
        reaches: [0, 0, 0, 0],
        answer: Err(Question::Size),
    },
    // t = 4 at n = 4
    Refusal {
        n: 4,
        t: 4,
        votes: [1, 1, 1, 1],
        crashes: [0, 0, 0, 0],
        reaches: [0, 0, 0, 0],
        answer: Err(Question::Crashable),
    },
    // crash round 5
    Refusal {
        n: 4,
        t: 3,
        votes: [1, 1, 1, 1],
        crashes: [5, 0, 0, 0],
        reaches: [0, 0, 0, 0],
        answer: Err(Question::CrashRound),
    },
    // while 4 passes
    Refusal {
        n: 4,
        t: 3,
        votes: [1, 1, 1, 1],
        crashes: [4, 0, 0, 0],
        reaches: [0, 0, 0, 0],
        answer: Ok(()),
    },
    // 1: 1/1000
    Refusal {
        n: 4,
        t: 3,
        votes: [1, 1, 1, 1],
        crashes: [1, 0, 0, 0],
        reaches: [1, 0, 0, 0],
        answer: Err(Question::Reach),
    },
    // four crashes
    Refusal {
        n: 4,
        t: 3,
        votes: [1, 1, 1, 1],
        crashes: [1, 1, 1, 1],
        reaches: [0, 0, 0, 0],
        answer: Err(Question::Crashes),
    },
];

// The table of the refused schedules, and the statement that covers it.
fn all_refusals() -> [Refusal; 6]
    ensures refused { RefusedTable result }
{
    REFUSED
}

// Refused schedule k, in document 01's order.
pub fn refusal_at(k: usize) -> Option<Refusal>
    ensures handed_out { RefusalAt k result }
{
    all_refusals().get(k).copied()
}
