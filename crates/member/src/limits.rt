// The limits of n, t, own number and vote.
ghost use Rattle.std.specs.Prelude.{◌≡◌};
ghost use Rattle.laws.specs.Question.{comes_to};
ghost use Rattle.sets.specs.Largest.{largest};
ghost use Rattle.member.specs.Opening.{size_questions, open_question};

use laws::{Question, is_within};
use sets::WIDTH;

// The questions about n and t.
pub fn size_question(n: usize, t: usize) -> Result<(), Question>
    ensures asked { comes_to result ≡ size_questions largest n t 0 }
{
    if !is_within(4, n, WIDTH) {
        return Err(Question::Size);
    }
    let below = n - 1;
    if !is_within(3, t, below) {
        return Err(Question::Crashable);
    }
    Ok(())
}

// The questions of opening.
pub fn open_question(n: usize, t: usize, id: usize, vote: u8) -> Result<(), Question>
    ensures asked { comes_to result ≡ open_question largest n t id vote }
{
    size_question(n, t)?;
    if !is_within(1, id, n) {
        return Err(Question::OwnNumber);
    }
    if 1 < vote {
        return Err(Question::Vote);
    }
    Ok(())
}
