// The first decider and the last round of a run (document 01, "Who hears whom"; document 02, K3), from the
// tables of crash rounds and of decided rounds: the process at place i, whose number is i + 1, crashes in
// round `crashes[i]`, or never if that is 0, and decided in round `rounds[i]`, or not at all if that is 0.
// There are as many processes as decided rounds. Both tables may have any length: one past the end of the
// crash rounds never crashes.
#![tactic(auto)]

ghost use Rattle.std.specs.Prelude.{◌≡◌, ◌<◌, length, get_or};
ghost use Rattle.laws.specs.Below.{bit as Below·bit};
ghost use Rattle.schedule.specs.Schedule.{ever_crashes};
ghost use Rattle.run.specs.Report.{before, first_with, first_of, last_of};

use laws::bit;
use sets::entry_at;

// 1 if the process at place i crashes, 0 if it never does: in which round makes no difference.
fn ever_crashes(crashes: &[u8], i: usize) -> u8
    ensures told { result ≡ Below·bit (ever_crashes (get_or crashes.now i 0)) }
{
    bit(entry_at(crashes, i) != 0)
}

// Whether the process at place i goes before the one at place k: it decided in an earlier round; or in the
// same one, and it never crashes where the other does; or both do or both do not, and it has the lower
// number.
fn goes_before(crashes: &[u8], rounds: &[u8], i: usize, k: usize) -> bool
    ensures tested { result ≡ before (λ j. get_or crashes.now j 0) (λ j. get_or rounds.now j 0) i k }
{
    let own_fate = ever_crashes(crashes, i);
    let other_fate = ever_crashes(crashes, k);
    let own_round = entry_at(rounds, i);
    let other_round = entry_at(rounds, k);
    (own_round, own_fate, i) < (other_round, other_fate, k)
}

// The number of the first decider, 0 for none, after the process at place i is looked at as well; it was
// `first` before. 0 stands for none, and not an `Option`: the definitions `first_with` and `first_of` have it so, and
// the report's count `first` (document 01), which the C interface writes too, is this number as it stands.
fn first_with(crashes: &[u8], rounds: &[u8], i: usize, first: usize) -> usize
    requires place { i < length rounds.now }
    ensures found { result ≡ first_with (λ j. get_or crashes.now j 0) (λ j. get_or rounds.now j 0) i first }
{
    let round = rounds[i];
    let number = i + 1;
    if round == 0 {
        return first;
    }
    if first == 0 {
        return number;
    }
    if goes_before(crashes, rounds, i, first - 1) {
        return number;
    }
    first
}

// The number of the first decider, 0 for none.
pub fn first_decider(crashes: &[u8], rounds: &[u8]) -> usize
    ensures found { result ≡ first_of (λ i. get_or crashes.now i 0) (λ i. get_or rounds.now i 0) (length rounds.now) }
{
    let mut first: usize = 0;
    // The loop goes by the place: a step may read both tables there, and at the place of the first decider so far.
    for i in 0..rounds.len() {
        first = first_with(crashes, rounds, i, first);
    }
    first
}

// The largest decided round, 0 if nobody decided.
pub fn last_round(rounds: &[u8]) -> u8
    ensures found { result ≡ last_of (λ i. get_or rounds.now i 0) (length rounds.now) }
{
    rounds.iter().copied().max().unwrap_or(0)
}
