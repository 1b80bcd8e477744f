// Who was silent: the set behind the quiet-round rule (document 02, K7). It is made in a pass of its own over the
// row, and only where a row sets it.
ghost use Rattle.std.specs.Prelude.{◌≡◌};
ghost use Rattle.member.specs.Hearing.{sets_silent, silent_after, with_silent};

use crate::codes::is_told;
use crate::heard::HeardRow;
use crate::zeros::{Untold, zero_places};
use member::{Member, Tally};
use sets::Set;

// Whether a row with these counts sets the silent set.
fn is_set(m: Member, k: Tally) -> bool
    ensures tested { result ≡ sets_silent m k }
{
    if m.decided != 0 {
        return false;
    }
    if m.round < 2 {
        return false;
    }
    !is_told(k)
}

// The silent set after a row. Where it is set and every code is an estimate, nobody was silent, and no pass is made.
pub fn silent_after(heard: &HeardRow) -> Set
    ensures left { result ≡ silent_after heard.now.member heard.now.row.now }
{
    let m = heard.member;
    let k = heard.counts;
    let row = heard.row;
    if !is_set(m, k) {
        return m.silent;
    }
    let estimates = k.zeros + k.ones;
    if estimates as usize == row.len() {
        return 0;
    }
    zero_places(&Untold { codes: row })
}

// A state with another silent set.
pub fn with_silent(m: Member, set: Set) -> Member
    ensures is { result ≡ with_silent m set }
{
    Member { silent: set, ..m }
}
