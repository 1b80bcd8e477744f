// The questions about one process, 4 to 6, on the values that stand at its place i. None has a
// `requires`: n, t and i may be anything.
ghost use Rattle.std.specs.Prelude.{◌≡◌, ◌+◌, leb};
ghost use Rattle.laws.specs.Question.{comes_to};
ghost use Rattle.schedule.specs.Questions.{reach_right, entry_question};

use laws::Question;
use sets::{Set, is_of_others};

// Whether a reach names only processes 1 to n, never its own process, and nobody where the crash
// round is 0.
fn is_reach_right(n: usize, i: usize, crash: u8, reach: Set) -> bool
    ensures tested { result ≡ reach_right n i crash reach }
{
    if !is_of_others(reach, n, i) {
        return false;
    }
    if crash != 0 {
        return true;
    }
    reach == 0
}

// Whether a crash round is at most t + 1.
fn is_round(crash: usize, t: usize) -> bool
    ensures tested { result ≡ leb crash (t + 1) }
{
    if crash <= t {
        return true;
    }
    if 1 < crash - t {
        return false;
    }
    true
}

// The questions of the process at place i.
pub fn process_question(
    n: usize,
    t: usize,
    i: usize,
    vote: u8,
    crash: u8,
    reach: Set,
) -> Result<(), Question>
    ensures asked { comes_to result ≡ entry_question n t i vote crash reach }
{
    if 1 < vote {
        return Err(Question::Vote);
    }
    if !is_round(crash as usize, t) {
        return Err(Question::CrashRound);
    }
    if !is_reach_right(n, i, crash, reach) {
        return Err(Question::Reach);
    }
    Ok(())
}
