// One process of FCWFA (document 01, "One member"): what a machine of the cluster runs.
//
// `open` gives the state of a new member and `say` the code that it sends in the round to come. `code` is
// that code of any state, in range or not; `is_stopped` tells whether a state has stopped, and
// `size_question` asks about n and t alone. The state goes in and comes back by value. Each takes anything,
// and none has a `requires`: `open` and `say` answer what specs/Answers.antt gives, refusals too.
//
// What a row of codes makes of a member is `hear` of the crate `hearing`, and why it decides by it `explain`.
// Their types stand here, since the definitions in specs/ name them.
#![tactic(auto)]

mod limits;
mod nobody;
mod state;

ghost use Rattle.std.specs.Prelude.{◌≡◌};
ghost use Rattle.laws.specs.Question.{answer_is};
ghost use Rattle.sets.specs.Largest.{largest};
ghost use Rattle.member.specs.Answers.{open_answer, say_answer};

use laws::Question;
pub use limits::size_question;
use sets::Set;
pub use state::{code, is_stopped};

// The state of a member. `id` is its own number, `round` the round to play next, and `decided` the
// round in which it decided, 0 while it has not. Once it has, `estimate` is the decision. `silent` is the
// set behind the quiet-round rule: who sent no estimate in the last row that set it.
#[derive(Clone, Copy)]
pub struct Member {
    pub n: u8,
    pub t: u8,
    pub id: u8,
    pub round: u8,
    pub estimate: u8,
    pub decided: u8,
    pub silent: Set,
}

// How often each kind of code stands in a row: estimates 0 and 1, decided messages with 0 (aborts)
// and with 1 (commits), and what is no code.
#[derive(Clone, Copy)]
pub struct Tally {
    pub zeros: u8,
    pub ones: u8,
    pub aborts: u8,
    pub commits: u8,
    pub others: u8,
}

// The rule by which an undecided member decides: told by a decided message, zeros only in round 2, a
// quiet round, enough estimates in round t, the last round, or none. None is a variant, and not the lack of one: it has a
// number for C and a word in a line of reasons as the others have.
#[derive(Clone, Copy)]
pub enum Rule {
    Told,
    ZerosOnly,
    Quiet,
    RoundT,
    LastRound,
    NoRule,
}

// Why a member decides: the rule, and the number that goes with it. Without a decision the rule is none, and
// the number that of the crash round, where one is known. The number stands beside the rule and not in its variants: the C
// interface writes the two apart, and a crash round goes with no rule.
#[derive(Clone, Copy)]
pub struct Reason {
    pub rule: Rule,
    pub number: u8,
}

// The state of a new member. What it takes stands side by side, as in the call for C.
pub fn open(n: usize, t: usize, id: usize, vote: u8) -> Result<Member, Question>
    ensures answered { answer_is result ≡ open_answer largest n t id vote }
{
    limits::open_question(n, t, id, vote)?;
    Ok(Member {
        n: n as u8,
        t: t as u8,
        id: id as u8,
        round: 1,
        estimate: vote,
        decided: 0,
        silent: 0,
    })
}

// The code that the member says in the round to come.
pub fn say(m: Member) -> Result<u8, Question>
    ensures answered { answer_is result ≡ say_answer largest m }
{
    if !state::is_in_range(m) {
        return Err(Question::State);
    }
    Ok(state::code(m) as u8)
}
