// One member's calls: the public `open`, `code` and `is_stopped` of the crate `member` and `hear` of the crate
// `hearing`, the code that a machine of the cluster runs, with what stands for a refused answer. Nothing else in
// this crate knows the protocol.
ghost use Rattle.std.specs.Prelude.{true, ◌≡◌};
ghost use Rattle.sets.specs.Largest.{largest};
ghost use Rattle.member.specs.State.{in_range};
ghost use Rattle.execution.specs.Calls.{calls};

use member::Member;
use sets::Blank;

// A member between two rounds: its state, and the code that it says in the round to come.
#[derive(Clone, Copy)]
pub struct Turn {
    pub state: Member,
    pub code: u8,
    ghost said: { code ≡ calls.says state },
}

// Whether a member has stopped.
pub fn is_stopped(m: Member) -> bool
    ensures tested { result ≡ calls.stopped m }
{
    member::is_stopped(m)
}

// A member that an accepted call left. It is in range, so that its saying is not refused and need not be asked.
fn in_turn(m: Member) -> Turn
    requires in_range { in_range largest m ≡ true }
    ensures state { result.state ≡ m }
{
    Turn {
        state: m,
        code: member::code(m) as u8,
    }
}

// A member opened with its number and vote; nobody, who says nothing, where that is refused.
pub fn opened(n: usize, t: usize, id: usize, vote: u8) -> Turn
    ensures state { result.state ≡ calls.opening n t id vote }
{
    let Ok(m) = member::open(n, t, id, vote) else {
        return Turn {
            state: Member::blank(),
            code: 0,
        };
    };
    in_turn(m)
}

// A member after a row that it hears; and the same one where that is refused.
pub fn heard(before: Turn, row: &[u8]) -> Turn
    ensures state { result.state ≡ calls.hears before.state row.now }
{
    let Ok(next) = hearing::hear(before.state, row) else {
        return before;
    };
    in_turn(next)
}
