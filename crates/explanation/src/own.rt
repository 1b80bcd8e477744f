// The row that a process heard in its own round, the one in which it decided, and the rule that it meets. The
// rounds before that one are played by the run's own rounds, and the row is formed as a run forms it.
ghost use Rattle.std.specs.Prelude.{true, ◌≢◌, ◌≡◌, ◌<◌, replicate};
ghost use Rattle.laws.specs.Answer.{accepted};
ghost use Rattle.laws.specs.Filled.{Overwritten};
ghost use Rattle.laws.specs.Question.{answer_is};
ghost use Rattle.sets.specs.Largest.{largest};
ghost use Rattle.schedule.specs.Schedule.{schedule_lent};
ghost use Rattle.schedule.specs.Questions.{question};
ghost use Rattle.run.specs.Run.{code_said};
ghost use Rattle.run.specs.Why.{own_round, why_of};
ghost use Rattle.execution.specs.Calls.{calls};

use acceptance::no_answers;
use delivery::{Round, deliver};
use execution::{blank_rows, play_rounds};
use laws::Question;
use member::{Member, Reason};
use schedule::Tables;
use sets::WIDTH;

// What a member says, and nothing where its saying is refused. The program `exchange` has the same one-line call,
// without a contract: a function for both would be that call itself.
fn said(m: Member) -> u8
    ensures is { result ≡ calls.says m }
{
    member::say(m).unwrap_or(0)
}

// What all members say.
fn codes_of(members: [Member; WIDTH]) -> [u8; WIDTH]
    ensures said { Overwritten largest (code_said calls members) (replicate largest 0) result }
{
    members.map(said)
}

// Why the process at a place decided in its own round.
pub fn by_own_row(tables: &Tables, place: usize, round: u8) -> Result<Reason, Question>
    requires accepted { question (schedule_lent tables.now) largest true ≡ 0 }
    requires process { place < tables.now.n }
    requires own { (round ≡ own_round (schedule_lent tables.now) place) × (round ≢ 0) }
    ensures explained { answer_is result ≡ accepted (why_of (schedule_lent tables.now) place) }
{
    let n = tables.n;
    let before = (round - 1) as usize;
    let ran = play_rounds(tables, no_answers(n), before)?;
    let codes = codes_of(ran.members);
    let mut grid = blank_rows::<WIDTH>();
    let this_round = Round {
        n,
        round,
        codes: &codes,
        crashes: tables.crashes,
        reaches: tables.reaches,
    };
    deliver(&this_round, &mut grid[..]);
    let m = ran.members[place];
    let row = &grid[place][..];
    hearing::explain(m, &row[..n])
}
