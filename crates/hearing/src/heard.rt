// A row that a member hears: one whose questions are all answered by yes, with its counts.
ghost use Rattle.std.specs.Prelude.{◌≡◌, true, length};
ghost use Rattle.sets.specs.Largest.{largest};
ghost use Rattle.member.specs.State.{in_range};
ghost use Rattle.member.specs.Hearing.{tally_of};

use member::{Member, Tally};

// The member is in range, the row is as long as its cluster, the counts are those of the row, and all its codes are
// codes.
#[derive(Clone, Copy)]
pub struct HeardRow<'a> {
    pub member: Member,
    pub row: &'a [u8],
    pub counts: Tally,
    ghost in_range: { in_range largest member ≡ true },
    ghost long: { length row.now ≡ member.n },
    ghost counted: { counts ≡ tally_of row.now },
    ghost codes: { counts.others ≡ 0 },
}
