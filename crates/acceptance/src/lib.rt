// Acceptance of a schedule in tables (document 01, "Questions before work"): questions 1 to 7, which
// come before any run.
//
// `question` refuses by the first question whose answer is no, and serves calls that take answer tables
// too; `accepts` answers for the three input tables alone. `accept` asks the same as `question`, and gives
// the schedule that no question refuses as a value, `Accepted`, which says so. `process_question` asks
// about the values of one process, `are_of_size` about the lengths of three tables, `crashes_question`
// whether at most t processes of a table of crash rounds crash. `AnswerLengths` are the lengths of the answer
// tables of a call, and `no_answers` those for a call that takes none. `crash_count` counts the crashes in such a
// table, up to the one that is too many, and answers `Counted`: how many, and how many processes it looked
// at. Each takes anything and answers what the definitions of the crate `schedule` give; none has a
// `requires`.
#![tactic(auto)]

mod accepted;
mod crashes;
mod process;
mod tables;

ghost use Rattle.std.specs.Prelude.{◌≡◌, IfOk};
ghost use Rattle.laws.specs.Question.{comes_to, answer_is};
ghost use Rattle.sets.specs.Largest.{largest};
ghost use Rattle.schedule.specs.Schedule.{schedule_lent};
ghost use Rattle.schedule.specs.Questions.{answers_of, question as Questions·question};
ghost use Rattle.acceptance.specs.Answers.{accept_answer};

use crate::tables::{are_answers_long, processes_question};
pub use accepted::Accepted;
pub use crashes::{Counted, crash_count, crashes_question};
use laws::Question;
use member::size_question;
pub use process::process_question;
use schedule::Tables;
pub use tables::{AnswerLengths, are_of_size, no_answers};

// The questions of a schedule in tables. The answer tables that the call takes have these lengths.
pub fn question(tables: &Tables, answers: AnswerLengths) -> Result<(), Question>
    ensures asked { comes_to result ≡ Questions·question (schedule_lent tables.now) largest (answers_of tables.now.n answers.decisions answers.rounds) }
{
    let n = tables.n;
    let t = tables.t;
    size_question(n, t)?;
    if !are_of_size(
        n,
        tables.votes.len(),
        tables.crashes.len(),
        tables.reaches.len(),
    ) {
        return Err(Question::Tables);
    }
    if !are_answers_long(n, answers) {
        return Err(Question::Tables);
    }
    processes_question(tables)?;
    crashes_question(t, tables.crashes)
}

// Acceptance alone: the call takes no answer tables.
pub fn accepts(tables: &Tables) -> Result<(), Question>
    ensures answered { answer_is result ≡ accept_answer largest (schedule_lent tables.now) }
{
    question(tables, no_answers(tables.n))
}

// The schedule in tables, accepted. The call that runs it takes answer tables of these lengths.
pub fn accept<'a>(tables: &Tables<'a>, answers: AnswerLengths) -> Result<Accepted<'a>, Question>
    ensures asked { comes_to result ≡ Questions·question (schedule_lent tables.now) largest (answers_of tables.now.n answers.decisions answers.rounds) }
    ensures same { IfOk result (λ a. schedule_lent a.tables ≡ schedule_lent tables.now) }
{
    question(tables, answers)?;
    Ok(Accepted { tables: *tables })
}
