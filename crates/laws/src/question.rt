// The questions before work, by name, and a refusal by one of them.
ghost use Rattle.std.specs.Prelude.{◌≡◌};
ghost use Rattle.laws.specs.Question.{question_number, comes_to};

// The question of a call that is the first whose answer is no. Its number is the one that documents 01 and 02 give it. Each
// stands with what it asks, as a refusal says it, and with the name of its number for C (embed/fcwfa.h).
#[derive(Clone, Copy, PartialEq, Eq)]
pub enum Question {
    // n, the number of processes, is not from 4 to the largest: FCWFA_REFUSED_N.
    Size = 1,
    // t, the number of crashes to bear, is not from 3 to n - 1: FCWFA_REFUSED_T.
    Crashable = 2,
    // A table is not as long as it should be: FCWFA_REFUSED_LENGTH.
    Tables = 3,
    // A vote is not 0 or 1: FCWFA_REFUSED_VOTE.
    Vote = 4,
    // A crash round is above t + 1: FCWFA_REFUSED_CRASH.
    CrashRound = 5,
    // A reach names a process above n or its own, or somebody where the crash round is 0: FCWFA_REFUSED_REACH.
    Reach = 6,
    // More than t processes crash: FCWFA_REFUSED_CRASHES.
    Crashes = 7,
    // A text is too long: FCWFA_REFUSED_TEXT_LENGTH.
    TextLength = 8,
    // A line is not of its form or is not there, or something follows the last one: FCWFA_REFUSED_FORM.
    LineForm = 9,
    // An own number is not from 1 to n: FCWFA_REFUSED_ID.
    OwnNumber = 10,
    // A state is not in range: FCWFA_REFUSED_STATE.
    State = 11,
    // A member that should hear a row has stopped: FCWFA_REFUSED_STOPPED.
    Stopped = 12,
    // A row is not n long: FCWFA_REFUSED_ROW_LENGTH.
    RowLength = 13,
    // A code of a row is above 4: FCWFA_REFUSED_CODE.
    Code = 14,
    // The own place of a row is not what the member says now: FCWFA_REFUSED_OWN_PLACE.
    OwnCode = 15,
    // A decided message stands in a row of round 1 or 2: FCWFA_REFUSED_EARLY.
    ToldEarly = 16,
    // Both decided messages stand in a row: FCWFA_REFUSED_BOTH.
    ToldBoth = 17,
    // A buffer is too short for the whole text: FCWFA_REFUSED_BUFFER.
    Room = 18,
}

impl From<Question> for u8 {
    ghost from_gives = { λ question number. number ≡ question_number question };

    fn from(question: Question) -> u8 {
        question as u8
    }
}

// What the questions of a call come to: 0 where each is answered by yes, else the number of the one that refuses it.
pub fn comes_to<T>(answer: &Result<T, Question>) -> u8
    ensures is { result ≡ comes_to answer.now }
{
    match answer {
        Ok(_) => 0,
        Err(question) => u8::from(*question),
    }
}

// A refusal that gives something back with its question. What is given back stands first: so a value that a call gives
// where it accepts, and the same one given back where it refuses, lie at the same place of an answer, and a run of 32
// processes was measured a twentieth faster than the other way round.
#[derive(Clone, Copy)]
pub struct Refused<B> {
    pub back: B,
    pub question: Question,
}

// A refusal by the question.
pub fn refused_by<B>(question: Question, back: B) -> Refused<B>
    ensures is { result ≡ record { question = question; back = back } }
{
    Refused { question, back }
}
