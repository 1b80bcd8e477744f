// Hearing (document 01, "One member"): what a row of codes makes of a member, and why.
//
// `hear` gives the state after the row, and `explain` the rule by which the row decides (document 02, K9). Each
// takes anything and answers what the definitions of the crate `member` give, refusals too; none has a
// `requires`.
#![tactic(auto)]

mod codes;
mod heard;
mod reasons;
mod rules;
mod silent;
mod zeros;

ghost use Rattle.std.specs.Prelude.{◌≡◌, IfOk};
ghost use Rattle.laws.specs.Question.{comes_to, answer_is, answer_with_is};
ghost use Rattle.sets.specs.Largest.{largest};
ghost use Rattle.member.specs.Questions.{hear_question};
ghost use Rattle.member.specs.Answers.{hear_answer, explain_answer};

use crate::heard::HeardRow;
use laws::{Question, Refused, refused_by};
use member::{Member, Reason, is_stopped, say};

// The questions of hearing a row, and the row with its counts where each is answered by yes. A saying is refused
// exactly where the state is not in range, which is the first question of hearing too; and what is said must stand
// in the own place.
fn accepted(m: Member, row: &[u8]) -> Result<HeardRow<'_>, Question>
    ensures asked { comes_to result ≡ hear_question largest m row.now }
    ensures same { IfOk result (λ heard. (heard.member ≡ m) × (heard.row.now ≡ row.now)) }
{
    let says = say(m)?;
    if is_stopped(m) {
        return Err(Question::Stopped);
    }
    if row.len() != m.n as usize {
        return Err(Question::RowLength);
    }
    let place = (m.id - 1) as usize;
    let counts = codes::tally(row);
    codes::row_question(m.round, says, row[place], counts)?;
    Ok(HeardRow {
        member: m,
        row,
        counts,
    })
}

// The state after the row; a refusal gives back the state given.
pub fn hear(m: Member, row: &[u8]) -> Result<Member, Refused<Member>>
    ensures answered { answer_with_is result ≡ hear_answer largest m row.now }
{
    match accepted(m, row) {
        Ok(heard) => {
            let set = silent::silent_after(&heard);
            let next = rules::next(&heard);
            Ok(silent::with_silent(next, set))
        }
        Err(question) => Err(refused_by(question, m)),
    }
}

// Why a member decides by a row. The row is refused exactly where hearing it is, with the same number.
pub fn explain(m: Member, row: &[u8]) -> Result<Reason, Question>
    ensures answered { answer_is result ≡ explain_answer largest m row.now }
{
    let heard = accepted(m, row)?;
    Ok(reasons::reason(&heard))
}
