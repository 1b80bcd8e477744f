// A row of codes: its counts, and the questions about it.
ghost use Rattle.std.specs.Prelude.{◌≡◌, ◌+◌, ◌≤◌, ◌<◌, eqb, ltb, length};
ghost use Rattle.laws.specs.Question.{comes_to};
ghost use Rattle.member.specs.declared.Member.{Member};
ghost use Rattle.member.specs.Saying.{says as Saying·says};
ghost use Rattle.member.specs.Hearing.{codes, tally_of, told, told_early, told_both};
ghost use Rattle.member.specs.Questions.{row_question};

use laws::{Question, bit};
use member::Tally;

// How often two codes, one above the other, stand in a row, and how often what is above both.
#[derive(Clone, Copy)]
struct Pair {
    lower: u8,
    upper: u8,
    above: u8,
}

// The code `code`, the one after it, and what is above both, in a row that is short enough for the counts.
fn pair_in(row: &[u8], code: u8) -> Pair
    requires short { length row.now ≤ 255 }
    requires room { code < 255 }
    ensures lower { result.lower ≡ codes (λ c. eqb c code) row.now }
    ensures upper { result.upper ≡ codes (λ c. eqb c (code + 1)) row.now }
    ensures above { result.above ≡ codes (λ c. ltb (code + 1) c) row.now }
{
    let next = code + 1;
    let mut lower: u8 = 0;
    let mut upper: u8 = 0;
    let mut above: u8 = 0;
    for &heard in row {
        lower += bit(heard == code);
        upper += bit(heard == next);
        above += bit(next < heard);
    }
    Pair {
        lower,
        upper,
        above,
    }
}

// The counts of a row that is short enough for them: first of the estimates, 1 and 2. Most rows hold nothing
// above them, and need one pass; in others the decided messages, 3 and 4, are told apart in a second.
pub fn tally(row: &[u8]) -> Tally
    requires short { length row.now ≤ 255 }
    ensures counted { result ≡ tally_of row.now }
{
    let estimates = pair_in(row, 1);
    let above = estimates.above;
    if above == 0 {
        return Tally {
            zeros: estimates.lower,
            ones: estimates.upper,
            aborts: 0,
            commits: 0,
            others: 0,
        };
    }
    let decided = pair_in(row, 3);
    Tally {
        zeros: estimates.lower,
        ones: estimates.upper,
        aborts: decided.lower,
        commits: decided.upper,
        others: decided.above,
    }
}

// Whether some code is 3 or 4.
pub fn is_told(k: Tally) -> bool
    ensures tested { result ≡ told k }
{
    0 < k.aborts || 0 < k.commits
}

// Whether a code 3 or 4 stands in a row of round 1 or 2.
fn is_told_early(r: u8, k: Tally) -> bool
    ensures tested { result ≡ told_early r k }
{
    r <= 2 && is_told(k)
}

// Whether both 3 and 4 stand in the row.
fn is_told_both(k: Tally) -> bool
    ensures tested { result ≡ told_both k }
{
    0 < k.aborts && 0 < k.commits
}

// The questions about the row, 14 to 17, of any member in this round that says this code; `own` stands
// in its own place.
pub fn row_question(round: u8, says: u8, own: u8, k: Tally) -> Result<(), Question>
    ensures asked { (m : Member) → m.round ≡ round → Saying·says m ≡ says → comes_to result ≡ row_question m own k }
{
    if k.others != 0 {
        return Err(Question::Code);
    }
    if own != says {
        return Err(Question::OwnCode);
    }
    if is_told_early(round, k) {
        return Err(Question::ToldEarly);
    }
    if is_told_both(k) {
        return Err(Question::ToldBoth);
    }
    Ok(())
}
