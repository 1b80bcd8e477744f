// The crashes in a table of crash rounds, counted up to the one that is too many (document 02, K4), and the question
// about their count.
ghost use Rattle.std.specs.Prelude.{◌≡◌, length, leb};
ghost use Rattle.laws.specs.Answer.{ask};
ghost use Rattle.laws.specs.Question.{comes_to};
ghost use Rattle.schedule.specs.Schedule.{crashes_in};
ghost use Rattle.schedule.specs.Counting.{looked_at, crashes_counted};

use laws::{Question, bit};

// How many of the processes looked at crash, and how many were looked at: as they are looked at in order,
// that is the number of the last one, and 0 for nobody.
#[derive(Clone, Copy)]
pub struct Counted {
    pub count: usize,
    pub looked: usize,
}

// The count of processes whose crash round isn't 0. It ends at the crash that makes t + 1 of them.
pub fn crash_count(t: usize, crashes: &[u8]) -> Counted
    ensures counted { result.count ≡ crashes_counted t crashes.now }
    ensures looked_at { result.looked ≡ looked_at t crashes.now }
{
    let mut count: usize = 0;
    // The loop goes by the place, and tests the count before the next crash round is read: with the test after it, the loop is
    // compiled to two more steps for each process, and took up to half as much time again.
    for i in 0..crashes.len() {
        if t < count {
            return Counted { count, looked: i };
        }
        count += bit(crashes[i] != 0) as usize;
    }
    Counted {
        count,
        looked: crashes.len(),
    }
}

// Question 7, of a table of crash rounds: whether at most t of its processes crash.
pub fn crashes_question(t: usize, crashes: &[u8]) -> Result<(), Question>
    ensures asked { comes_to result ≡ ask (leb (crashes_in (length crashes.now) crashes.now) t) 7 0 }
{
    let counted = crash_count(t, crashes);
    if t < counted.count {
        return Err(Question::Crashes);
    }
    Ok(())
}
