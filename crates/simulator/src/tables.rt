// What the bench gives: the tables of decisions and rounds, and the counts.
ghost use Rattle.std.specs.Prelude.{◌≡◌, cond, ◌≤◌, eqb, length, get_or};
ghost use Rattle.laws.specs.Below.{tabulate};
ghost use Rattle.sets.specs.Largest.{largest};
ghost use Rattle.schedule.specs.Counting.{crashes_counted};
ghost use Rattle.run.specs.Report.{first_of, last_of, round_of, decision_of};

use crate::Counts;
use member::Member;
use sets::WIDTH;

// The decision of a member, 2 for none.
pub fn decision(m: Member) -> u8
    ensures is { result ≡ cond (eqb m.decided 0) 2 m.estimate }
{
    if m.decided == 0 { 2 } else { m.estimate }
}

// Fills the two tables from the states at the end of the run.
pub fn fill(members: [Member; WIDTH], decisions: &mut [u8], rounds: &mut [u8])
    requires size { (length decisions.old ≤ largest) × (length rounds.old ≡ length decisions.old) }
    ensures decided { decisions.new ≡ tabulate (length decisions.old) (decision_of members) }
    ensures timed { rounds.new ≡ tabulate (length rounds.old) (round_of members) }
{
    let n = decisions.len();
    // The loop has the place beside the member, at which two tables are entered: a zip of three is no plainer.
    for (i, &m) in members[..n].iter().enumerate() {
        decisions[i] = decision(m);
        rounds[i] = m.decided;
    }
}

// The counts, from t, the crash rounds, the decided rounds and the messages of the run.
pub fn counts_of(t: usize, crashes: &[u8], rounds: &[u8], messages: usize) -> Counts
    ensures counted { result ≡ record {
      f = crashes_counted t crashes.now;
      first = first_of (λ i. get_or crashes.now i 0) (λ i. get_or rounds.now i 0) (length rounds.now);
      last = last_of (λ i. get_or rounds.now i 0) (length rounds.now);
      messages = messages;
    } }
{
    let counted = acceptance::crash_count(t, crashes);
    Counts {
        f: counted.count,
        first: deciders::first_decider(crashes, rounds),
        last: deciders::last_round(rounds) as usize,
        messages,
    }
}
