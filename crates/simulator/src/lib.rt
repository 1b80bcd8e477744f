// Runs a schedule given in tables, to its end (document 01, "Who hears whom") or until its outcome is known
// (document 02, K6).
//
// `simulate` has the questions asked and the rounds played by `play_rounds` of the crate `execution`, fills
// the two answer tables and answers the counts. `conclude` has them asked and played by `play_to_decision`, and
// answers a decision and its round. Each takes anything, and has no `requires`.
#![tactic(auto)]

mod tables;

ghost use Rattle.schedule.specs.Schedule.{schedule_lent};
ghost use Rattle.simulator.specs.Answers.{Simulates, Concludes};

use acceptance::AnswerLengths;
use execution::{play_rounds, play_to_decision};
use laws::Question;
use schedule::Tables;
use sets::WIDTH;

// The counts of the report.
#[derive(Clone, Copy)]
pub struct Counts {
    pub f: usize,
    pub first: usize,
    pub last: usize,
    pub messages: usize,
}

// The outcome of a schedule: what each process decides that decides, and the first round in which one does.
#[derive(Clone, Copy)]
pub struct Outcome {
    pub decision: u8,
    pub round: u8,
}

// The run of the schedule of these tables to its end: no run has more rounds than the largest cluster has
// processes. `decisions` and `rounds` get the decision of each process, 2 for none, and its round, 0 for
// none. A refused call leaves both as they were lent.
pub fn simulate(
    tables: &Tables,
    decisions: &mut [u8],
    rounds: &mut [u8],
) -> Result<Counts, Question>
    ensures simulated { Simulates (schedule_lent tables.now) decisions.old rounds.old result decisions.new rounds.new }
{
    let answers = AnswerLengths {
        decisions: decisions.len(),
        rounds: rounds.len(),
    };
    let ran = play_rounds(tables, answers, WIDTH)?;
    tables::fill(ran.members, decisions, rounds);
    Ok(tables::counts_of(tables.t, tables.crashes, &rounds[..], ran.messages))
}

// The outcome of the schedule of these tables: rounds are played until one in which some process decides.
pub fn conclude(tables: &Tables) -> Result<Outcome, Question>
    ensures concluded { Concludes (schedule_lent tables.now) result }
{
    let first = play_to_decision(tables)?;
    Ok(Outcome {
        decision: tables::decision(first.member),
        round: first.round,
    })
}
