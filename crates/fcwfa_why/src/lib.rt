// Why a process of a schedule decided, for programs in C and Rust: `explain` on numbers and tables.
//
// The call answers 0, or the number of the first question whose answer is no; then what it was lent is as
// before. It takes any numbers and tables. A caller owes this alone: no pointer is NULL, also where its length is
// 0, each is good for the number of entries that is said or given with it, and what is written overlaps with
// nothing else that the call is lent.
#![tactic(auto)]

ghost use Rattle.std.specs.Prelude.{◌≡◌};
ghost use Rattle.schedule.specs.Schedule.{schedule_of};
ghost use Rattle.fcwfa_why.specs.Numbers.{kind_of, ExplainsNumbers};

use explanation::explain;
use member::Rule;
use schedule::Tables;
use sets::Set;

// The kind of a reason; where no rule is named, the process crashed. A function of this crate, and no `From`
// beside the type: the numbers and their order are the C interface's.
fn kind(rule: Rule) -> usize
    ensures is { result ≡ kind_of rule }
{
    match rule {
        Rule::NoRule => 0,
        Rule::Told => 1,
        Rule::ZerosOnly => 2,
        Rule::Quiet => 3,
        Rule::RoundT => 4,
        Rule::LastRound => 5,
    }
}

// Why the process with this number decided in the run of the schedule of these tables: `why` gets the kind of
// the reason and the number that goes with it. The interface for C fixes the parameters. The answer is matched, and its
// number not taken from `laws::comes_to`, as the reason of an accepted call is written.
#[tactic(auto, unfolding(explanation::specs::Answers::why_answer, laws::specs::Answer::answer, laws::specs::Answer::place_after))]
#[unsafe(no_mangle)]
pub extern "C" fn fcwfa_why(
    n: usize,
    t: usize,
    votes: &[u8],
    crashes: &[u8],
    reaches: &[Set],
    id: usize,
    why: &mut [usize; 2],
) -> u8
    ensures explained { ExplainsNumbers (schedule_of n t votes.now crashes.now reaches.now) id why.old result why.new }
{
    let tables = Tables {
        n,
        t,
        votes,
        crashes,
        reaches,
    };
    match explain(&tables, id) {
        Ok(reason) => {
            *why = [kind(reason.rule), usize::from(reason.number)];
            0
        }
        Err(question) => question.into(),
    }
}
