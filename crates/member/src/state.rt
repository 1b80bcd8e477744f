// What a state says: whether it is in range, whether it has stopped, and the code that it sends.
ghost use Rattle.std.specs.Prelude.{◌≡◌, ◌≤◌};
ghost use Rattle.sets.specs.Largest.{largest};
ghost use Rattle.member.specs.State.{in_limits, placed, silent_others, in_range, stopped};
ghost use Rattle.member.specs.Saying.{says};

use crate::Member;
use crate::limits::open_question;
use laws::is_within;
use sets::is_of_others;

// Whether n, t, own number and estimate are within their limits: the questions of opening.
fn is_in_limits(m: Member) -> bool
    ensures tested { result ≡ in_limits largest m }
{
    open_question(m.n as usize, m.t as usize, m.id as usize, m.estimate).is_ok()
}

// Whether the round and the decided round fit together.
fn is_placed(m: Member) -> bool
    ensures tested { result ≡ placed m }
{
    let t = m.t as usize;
    let round = m.round as usize;
    let decided = m.decided as usize;
    if decided == 0 {
        return is_within(1, round, t + 1);
    }
    if !is_within(2, decided, t + 1) {
        return false;
    }
    if !is_within(decided + 1, round, decided + 2) {
        return false;
    }
    round <= t + 2
}

// Whether the silent set names only processes 1 to n, and not the own number, which is in its limits.
fn is_silent_of_others(m: Member) -> bool
    requires id { 1 ≤ m.id }
    ensures tested { result ≡ silent_others m }
{
    is_of_others(m.silent, m.n as usize, (m.id - 1) as usize)
}

pub fn is_in_range(m: Member) -> bool
    ensures tested { result ≡ in_range largest m }
{
    if !is_in_limits(m) {
        return false;
    }
    if !is_placed(m) {
        return false;
    }
    is_silent_of_others(m)
}

// Whether a state, in range or not, is that of a stopped member.
pub fn is_stopped(m: Member) -> bool
    ensures tested { result ≡ stopped m }
{
    let round = m.round as usize;
    let decided = m.decided as usize;
    if round == m.t as usize + 2 {
        return true;
    }
    if decided == 0 {
        return false;
    }
    round == decided + 2
}

// The code that a state says, in range or not: out of range it need not fit a byte, for there the estimate
// is any byte.
pub fn code(m: Member) -> usize
    ensures said { result ≡ says m }
{
    let estimate = m.estimate as usize;
    if is_stopped(m) {
        return 0;
    }
    if m.decided == 0 {
        return 1 + estimate;
    }
    3 + estimate
}
