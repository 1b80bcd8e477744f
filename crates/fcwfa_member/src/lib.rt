// The member for programs in C and Rust: `open`, `say` and `hear` on numbers and bytes.
//
// A state is fourteen bytes: n, t, own number, the round to play next, the estimate and the decided round, a
// byte each, and the silent set as eight bytes, the lowest first. Each
// function answers 0, or the number of the first question whose answer is no; then what it was lent
// is as before. Each takes any numbers and bytes. A caller owes this alone: no pointer is NULL, also
// where its length is 0, each is good for the number of entries that is said or given with it, and what
// is written overlaps with nothing else that the call is lent.
//
// Each matches its answer, and does not take the number from `laws::comes_to`, as it writes what an accepted call gives.
#![tactic(auto)]

mod bytes;

ghost use Rattle.std.specs.Prelude.{◌≡◌};
ghost use Rattle.laws.specs.Answer.{place_after};
ghost use Rattle.sets.specs.Largest.{largest};
ghost use Rattle.member.specs.Opening.{opening, open_question};
ghost use Rattle.member.specs.Saying.{says};
ghost use Rattle.member.specs.Hearing.{hears};
ghost use Rattle.member.specs.Questions.{say_question, hear_question};
ghost use Rattle.fcwfa_member.specs.Bytes.{state_bytes, state_in};

// `state` becomes that of a new member.
#[tactic(auto, unfolding(member::specs::Answers::open_answer, laws::specs::Answer::answer, laws::specs::Answer::place_after))]
#[unsafe(no_mangle)]
pub extern "C" fn fcwfa_open(n: usize, t: usize, id: usize, vote: u8, state: &mut [u8; 14]) -> u8
    ensures number { result ≡ open_question largest n t id vote }
    ensures state_after { state.new ≡ place_after (open_question largest n t id vote) (state_bytes (opening n t id vote)) state.old }
{
    match member::open(n, t, id, vote) {
        Ok(m) => {
            *state = bytes::state_bytes(m);
            0
        }
        Err(question) => question.into(),
    }
}

// `code` becomes what the member says in the round to come.
#[tactic(auto, unfolding(member::specs::Answers::say_answer, laws::specs::Answer::answer, laws::specs::Answer::place_after))]
#[unsafe(no_mangle)]
pub extern "C" fn fcwfa_say(state: &[u8; 14], code: &mut u8) -> u8
    ensures number { result ≡ say_question largest (state_in state.now) }
    ensures code_after { code.new ≡ place_after (say_question largest (state_in state.now)) (says (state_in state.now)) code.old }
{
    match member::say(bytes::state_in(*state)) {
        Ok(said) => {
            *code = said;
            0
        }
        Err(question) => question.into(),
    }
}

// `state` becomes that after the row.
#[tactic(auto, unfolding(member::specs::Answers::hear_answer, laws::specs::Answer::answer, laws::specs::Answer::place_after))]
#[unsafe(no_mangle)]
pub extern "C" fn fcwfa_hear(state: &mut [u8; 14], row: &[u8]) -> u8
    ensures number { result ≡ hear_question largest (state_in state.old) row.now }
    ensures state_after { state.new ≡ place_after (hear_question largest (state_in state.old) row.now) (state_bytes (hears (state_in state.old) row.now)) state.old }
{
    match hearing::hear(bytes::state_in(*state), row) {
        Ok(m) => {
            *state = bytes::state_bytes(m);
            0
        }
        Err(refused) => refused.question.into(),
    }
}
