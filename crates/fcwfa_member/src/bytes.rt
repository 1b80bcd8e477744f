// A member's state as fourteen bytes. They are the C interface's, and no `From` can be made in this crate between types
// of others, so these are functions.
ghost use Rattle.std.specs.Prelude.{◌≡◌};
ghost use Rattle.fcwfa_member.specs.Bytes.{state_bytes, state_in};

use member::Member;
use sets::Set;

pub fn state_bytes(m: Member) -> [u8; 14]
    ensures are { result ≡ state_bytes m }
{
    let [s0, s1, s2, s3, s4, s5, s6, s7] = m.silent.to_le_bytes();
    [
        m.n, m.t, m.id, m.round, m.estimate, m.decided, s0, s1, s2, s3, s4, s5, s6, s7,
    ]
}

pub fn state_in(bytes: [u8; 14]) -> Member
    ensures is { result ≡ state_in bytes }
{
    let [n, t, id, round, estimate, decided, ..] = bytes;
    let [.., s0, s1, s2, s3, s4, s5, s6, s7] = bytes;
    Member {
        n,
        t,
        id,
        round,
        estimate,
        decided,
        silent: Set::from_le_bytes([s0, s1, s2, s3, s4, s5, s6, s7]),
    }
}
