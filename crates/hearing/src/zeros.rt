// The places of a row at which 0 stands, as a set.
//
// Codes are taken in eights. Eight codes of at most 2 fit into the halves of four bytes. 2 less a code is 2, 1
// or 0, so its upper bit is set exactly where the code is 0, and one product brings the eight upper bits side
// by side.
ghost use Rattle.std.specs.Prelude.{◌≡◌, ℕ, ◌+◌, ◌-◌, ◌*◌, ◌%◌, ◌^◌, ◌≤◌, ◌<◌, eqb, length, get_or};
ghost use Rattle.laws.specs.Below.{bit as Below·bit, sum};
ghost use Rattle.sets.specs.Largest.{largest};
ghost use Rattle.sets.specs.Sets.{set_of};

use laws::bit;
use sets::Set;

// A row whose codes are all at most 2, so without a decided message, and no longer than a set has bits.
#[derive(Clone, Copy)]
pub struct Untold<'a> {
    pub codes: &'a [u8],
    ghost short: { length codes.now ≤ largest },
    ghost low: { (j : ℕ) → j < length codes.now → get_or codes.now j 0 ≤ 2 },
}

// Four codes as one number, a byte for each.
fn joined(c0: u8, c1: u8, c2: u8, c3: u8) -> Set
    ensures bytes { result ≡ c0 + c1 * 256 + c2 * 65536 + c3 * 16777216 }
{
    ((c3 as Set * 256 + c2 as Set) * 256 + c1 as Set) * 256 + c0 as Set
}

// The four codes from a place on.
fn four(row: &[u8], at: usize) -> Set
    requires here { at + 4 ≤ length row.now }
    ensures bytes { result ≡ sum 4 (λ k. get_or row.now (at + k) 0 * 256 ^ k) }
{
    joined(row[at], row[at + 1], row[at + 2], row[at + 3])
}

// The places among eight at which 0 stands. The four later codes come beside the four earlier ones, each
// in the upper half of a byte.
fn eight(row: &Untold, at: usize) -> Set
    requires here { at + 8 ≤ length row.now.codes.now }
    ensures gathered { result ≡ set_of 8 (λ k. Below·bit (eqb (get_or row.now.codes.now (at + k) 0) 0)) }
{
    let halves = four(row.codes, at) + four(row.codes, at + 4) * 16;
    let zeros = (0x22222222 - halves) & 0x22222222;
    zeros * 0x204081 / 0x400000 % 256
}

// The set of the places among the whole eights of a row. The place is counted in a `while`: with a `for` over the
// eights a whole run was measured a sixth slower.
fn eights(row: &Untold) -> Set
    ensures named { let codes = row.now.codes.now in result ≡ set_of (length codes - length codes % 8) (λ j. Below·bit (eqb (get_or codes j 0) 0)) }
{
    let mut set: Set = 0;
    let mut i: usize = 0;
    while 8 <= row.codes.len() - i {
        set += eight(row, i) << (i as Set);
        i += 8;
    }
    set
}

// The same place by place, for a row that is too short for an eight.
fn one_by_one(row: &Untold) -> Set
    ensures named { result ≡ set_of (length row.now.codes.now) (λ j. Below·bit (eqb (get_or row.now.codes.now j 0) 0)) }
{
    let mut set: Set = 0;
    for (i, &code) in row.codes.iter().enumerate() {
        set += Set::from(bit(code == 0)) << (i as Set);
    }
    set
}

// The set of the places of a row at which 0 stands. What is left after the whole eights is the end of
// the last eight places.
pub fn zero_places(row: &Untold) -> Set
    ensures named { result ≡ set_of (length row.now.codes.now) (λ j. Below·bit (eqb (get_or row.now.codes.now j 0) 0)) }
{
    let n = row.codes.len();
    if n < 8 {
        return one_by_one(row);
    }
    let set = eights(row);
    let left = n % 8;
    if left == 0 {
        return set;
    }
    let end = eight(row, n - 8) >> ((8 - left) as Set);
    set + (end << ((n - left) as Set))
}
