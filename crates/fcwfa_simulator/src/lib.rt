// The simulator for programs in C and Rust: `simulate` and `crash_count` on numbers and tables.
//
// Each call answers 0, or the number of the first question whose answer is no; then what it was lent is as
// before. It takes any numbers and tables. A caller owes this alone: no pointer is NULL, also where its
// length is 0, each is good for the number of entries that is said or given with it, and what is written
// overlaps with nothing else that the call is lent.
#![tactic(auto)]

ghost use Rattle.std.specs.Prelude.{◌≡◌};
ghost use Rattle.schedule.specs.Schedule.{schedule_of};
ghost use Rattle.fcwfa_simulator.specs.Numbers.{counts_numbers, SimulatesNumbers, counted_numbers};

use schedule::Tables;
use sets::Set;
use simulator::Counts;

// The four counts in the report's order. A function of this crate, and no `From` beside the type: the numbers and their
// order are the C interface's.
fn counts_numbers(counts: Counts) -> [usize; 4]
    ensures are { result ≡ counts_numbers counts }
{
    [counts.f, counts.first, counts.last, counts.messages]
}

// Runs the schedule of these tables to its end: `decisions` and `rounds` get the decision of each
// process, 2 for none, and its round, 0 for none; `counts` gets f, first, last and messages. The interface for
// C fixes the parameters. The answer is matched, and its number not taken from `laws::comes_to`, as the counts of an accepted
// call are written.
#[tactic(auto, unfolding(simulator::specs::Answers::simulate_answer, laws::specs::Answer::answer, laws::specs::Answer::place_after))]
#[unsafe(no_mangle)]
pub extern "C" fn fcwfa_simulate(
    n: usize,
    t: usize,
    votes: &[u8],
    crashes: &[u8],
    reaches: &[Set],
    decisions: &mut [u8],
    rounds: &mut [u8],
    counts: &mut [usize; 4],
) -> u8
    ensures simulated { SimulatesNumbers (schedule_of n t votes.now crashes.now reaches.now) decisions.old rounds.old counts.old result decisions.new rounds.new counts.new }
{
    let tables = Tables {
        n,
        t,
        votes,
        crashes,
        reaches,
    };
    match simulator::simulate(&tables, decisions, rounds) {
        Ok(given) => {
            *counts = counts_numbers(given);
            0
        }
        Err(question) => question.into(),
    }
}

// Counts the crashes in a table of crash rounds: `counted` gets the count, which ends at the crash that
// makes t + 1 of them, and the number of the last process looked at. It refuses nothing.
#[unsafe(no_mangle)]
pub extern "C" fn fcwfa_count_crashes(t: usize, crashes: &[u8], counted: &mut [usize; 2]) -> u8
    ensures number { result ≡ 0 }
    ensures counted_after { counted.new ≡ counted_numbers t crashes.now }
{
    let found = acceptance::crash_count(t, crashes);
    *counted = [found.count, found.looked];
    0
}
