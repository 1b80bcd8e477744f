// The tables of a schedule: their lengths, and the questions of the processes in order.
ghost use Rattle.std.specs.Prelude.{◌≡◌, true, length};
ghost use Rattle.laws.specs.Answer.{ask_each};
ghost use Rattle.laws.specs.Question.{comes_to};
ghost use Rattle.schedule.specs.Schedule.{schedule_lent};
ghost use Rattle.schedule.specs.Questions.{tables_of, answers_of, process_question};

use crate::process::process_question;
use laws::Question;
use schedule::Tables;

// The lengths of the answer tables that a call takes.
#[derive(Clone, Copy)]
pub struct AnswerLengths {
    pub decisions: usize,
    pub rounds: usize,
}

// The lengths for a call that takes no answer tables: number 3 asks nothing of them.
pub fn no_answers(n: usize) -> AnswerLengths
    ensures long { answers_of n result.decisions result.rounds ≡ true }
{
    AnswerLengths {
        decisions: n,
        rounds: n,
    }
}

// This asks about three lengths and `are_answers_long` about two: one function over an array of lengths would need a
// definition over lists in place of `tables_of` and `answers_of`, which document 01's words give.
// Whether three tables, whose lengths are given, have so many entries each.
pub fn are_of_size(size: usize, votes: usize, crashes: usize, reaches: usize) -> bool
    ensures tested { result ≡ tables_of size votes crashes reaches }
{
    if votes != size {
        return false;
    }
    if crashes != size {
        return false;
    }
    reaches == size
}

// Whether the answer tables are n long.
pub fn are_answers_long(n: usize, answers: AnswerLengths) -> bool
    ensures tested { result ≡ answers_of n answers.decisions answers.rounds }
{
    if answers.decisions != n {
        return false;
    }
    answers.rounds == n
}

// The questions of the processes in order.
pub fn processes_question(tables: &Tables) -> Result<(), Question>
    requires long { let s = schedule_lent tables.now in (length s.votes ≡ s.n) × (length s.crashes ≡ s.n) × (length s.reaches ≡ s.n) }
    ensures asked { comes_to result ≡ ask_each tables.now.n (process_question (schedule_lent tables.now)) }
{
    // By place: a zip of three tables would nest their patterns, and read no plainer.
    for i in 0..tables.n {
        let (vote, crash) = (tables.votes[i], tables.crashes[i]);
        process_question(tables.n, tables.t, i, vote, crash, tables.reaches[i])?;
    }
    Ok(())
}
