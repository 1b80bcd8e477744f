// The messages of a round: how many copies go out on the wire for each sender.
//
// Who completes the round sends one to each other process. So these senders are counted at once, and those that
// crash in the round apart.
ghost use Rattle.std.specs.Prelude.{◌≡◌, not, eqb, ◌-◌, ◌≤◌, ◌<◌, get_or};
ghost use Rattle.laws.specs.Below.{count};
ghost use Rattle.sets.specs.Largest.{largest};
ghost use Rattle.member.specs.Saying.{nothing};
ghost use Rattle.run.specs.Report.{sent_by};

use crate::Round;
use laws::bit;
use sets::{WIDTH, entry_at, ones};

// How many other processes a cluster of n has: so many copies go out on the wire for a sender that completes
// the round. There is nobody where n is 0.
pub fn others(n: usize) -> usize
    ensures is { result ≡ n - 1 }
{
    n.saturating_sub(1)
}

// How many codes of a row say something.
pub fn speakers(row: [u8; WIDTH]) -> usize
    ensures counted { result ≡ count largest (λ j. not (eqb (get_or row j 0) nothing)) }
{
    let mut speaking: u8 = 0;
    for &code in &row {
        speaking += bit(code != 0);
    }
    speaking as usize
}

// How many copies the sender at place j sends if it crashes in the round, to each process that its reach names:
// what a sender adds in a cluster of 0, in which one that completes the round adds nothing. A reach is read only
// after the tests of the crash round.
pub fn crashing_copies(this_round: &Round, j: usize) -> usize
    requires place { j < largest }
    ensures sent { let r = this_round.now in result ≡ sent_by 0 r.round (get_or r.crashes.now j 0) (get_or r.reaches.now j 0) (get_or r.codes.now j 0) }
    ensures few { result ≤ largest }
{
    let crash = entry_at(this_round.crashes, j);
    if crash == 0 {
        return 0;
    }
    if crash != this_round.round {
        return 0;
    }
    let reach = entry_at(this_round.reaches, j);
    let code = this_round.codes[j];
    if code == 0 { 0 } else { ones(reach) }
}
