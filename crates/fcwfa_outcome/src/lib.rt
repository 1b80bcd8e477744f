// The outcome of a schedule for programs in C and Rust: `conclude` on numbers and tables.
//
// The call answers 0, or the number of the first question whose answer is no; then what it was lent is as
// before. It takes any numbers and tables. A caller owes this alone: no pointer is NULL, also where its length is
// 0, each is good for the number of entries that is said or given with it, and what is written overlaps with
// nothing else that the call is lent.
//
// It stands in a library of its own: where one library played rounds in two ways, the function that plays a round
// would be built into neither, and both calls would be slower.
#![tactic(auto)]

ghost use Rattle.schedule.specs.Schedule.{schedule_of};
ghost use Rattle.fcwfa_outcome.specs.Numbers.{ConcludesNumbers};

use schedule::Tables;
use sets::Set;

// Plays rounds of the schedule of these tables until one in which some process decides: `outcome` gets the
// value that it decides, 0 or 1, and the round. The interface for C fixes the parameters. The answer is matched, and its
// number not taken from `laws::comes_to`, as the outcome of an accepted call is written.
#[tactic(auto, unfolding(simulator::specs::Answers::outcome_answer, laws::specs::Answer::answer, laws::specs::Answer::place_after))]
#[unsafe(no_mangle)]
pub extern "C" fn fcwfa_outcome(
    n: usize,
    t: usize,
    votes: &[u8],
    crashes: &[u8],
    reaches: &[Set],
    outcome: &mut [u8; 2],
) -> u8
    ensures concluded { ConcludesNumbers (schedule_of n t votes.now crashes.now reaches.now) outcome.old result outcome.new }
{
    let tables = Tables {
        n,
        t,
        votes,
        crashes,
        reaches,
    };
    match simulator::conclude(&tables) {
        Ok(found) => {
            *outcome = [found.decision, found.round];
            0
        }
        Err(question) => question.into(),
    }
}
