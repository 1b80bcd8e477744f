// The run of a schedule by its members' own calls (document 01, "Who hears whom").
//
// The members stand side by side in an array, and round.rt plays one round of them. `play_rounds` asks questions
// 1 to 7 and plays as many rounds as it is told (play.rt), and `play_to_decision` asks them and plays rounds
// until one in which some process decides (decision.rt). Each takes anything, and has no `requires`. That no call
// of a member is refused in the run of an accepted schedule is proved. `blank_rows` is a grid for the rows of a
// round, without any yet.
#![tactic(auto)]

mod calls;
mod decision;
mod grid;
mod play;
mod round;

ghost use Rattle.std.specs.Prelude.{◌≡◌, ◌+◌, min};
ghost use Rattle.laws.specs.Question.{answer_is};
ghost use Rattle.sets.specs.Largest.{largest};
ghost use Rattle.schedule.specs.Schedule.{schedule_lent};
ghost use Rattle.schedule.specs.Questions.{answers_of};
ghost use Rattle.run.specs.Protocol.{fcwfa};
ghost use Rattle.execution.specs.Ran.{ran_of};
ghost use Rattle.execution.specs.Decision.{first_decision_of};

use crate::decision::decide;
use crate::play::play;
use acceptance::{AnswerLengths, accept, no_answers};
pub use grid::blank_rows;
use laws::Question;
use member::Member;
use schedule::Tables;
use sets::WIDTH;

// What the rounds of a schedule leave: the members after these rounds, with nobody at the places that hold no member;
// and the messages sent in them.
#[derive(Clone, Copy)]
pub struct Ran {
    pub members: [Member; WIDTH],
    pub messages: usize,
}

// What is left by rounds that end with the first in which some process decides: that round, and the lowest-numbered
// member that has decided after it.
#[derive(Clone, Copy)]
pub struct FirstDecision {
    pub round: u8,
    pub member: Member,
}

// Rounds 1 to `last` of the schedule of these tables, t + 1 at most. The call's answer tables have these lengths.
pub fn play_rounds(tables: &Tables, answers: AnswerLengths, last: usize) -> Result<Ran, Question>
    ensures ran { answer_is result ≡ ran_of fcwfa largest (schedule_lent tables.now) (answers_of tables.now.n answers.decisions answers.rounds) (min last (tables.now.t + 1)) }
{
    let schedule = accept(tables, answers)?;
    let end = last.min(tables.t + 1);
    Ok(play(&schedule, end))
}

// Rounds of the schedule of these tables, from 1 on, until one in which some process decides.
pub fn play_to_decision(tables: &Tables) -> Result<FirstDecision, Question>
    ensures decided { answer_is result ≡ first_decision_of fcwfa largest (schedule_lent tables.now) }
{
    let schedule = accept(tables, no_answers(tables.n))?;
    Ok(decide(&schedule))
}
