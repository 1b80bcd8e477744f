// Why a process of a schedule decided, or why it did not (document 02, K9), under FCWFA.
//
// `explain` has the questions asked and the rounds played by `play_rounds` of the crate `execution`. For a
// process that decided it plays the rounds before that one again, forms the rows of the round as a run does, and
// asks the member which rule its row meets. It takes anything, and has no `requires`.
#![tactic(auto)]

mod own;

ghost use Rattle.schedule.specs.Schedule.{schedule_lent};
ghost use Rattle.explanation.specs.Answers.{Explains};

use crate::own::by_own_row;
use acceptance::no_answers;
use execution::play_rounds;
use laws::{Question, is_within};
use member::{Reason, Rule};
use schedule::Tables;
use sets::WIDTH;

// Why the process with this number decided in the run of the schedule of these tables: the rule and the number
// that goes with it; for a process without a decision no rule, and its crash round.
pub fn explain(tables: &Tables, id: usize) -> Result<Reason, Question>
    ensures explained { Explains (schedule_lent tables.now) id result }
{
    let n = tables.n;
    let ran = play_rounds(tables, no_answers(n), WIDTH)?;
    if !is_within(1, id, n) {
        return Err(Question::OwnNumber);
    }
    let place = id - 1;
    let m = ran.members[place];
    let round = m.decided;
    if round == 0 {
        return Ok(Reason {
            rule: Rule::NoRule,
            number: tables.crashes[place],
        });
    }
    by_own_row(tables, place, round)
}
