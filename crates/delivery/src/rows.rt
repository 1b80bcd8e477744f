// The rows of a round: what each process hears from each, as an array of rows.
//
// Who completes the round is heard by all. So every row starts as the codes of those, and then each sender
// that crashes in the round is entered in the rows of the processes that its reach names.
ghost use Rattle.std.specs.Prelude.{◌≡◌, cond, ltb, ℕ, ◌≤◌, ◌<◌, length, get_or};
ghost use Rattle.laws.specs.Filled.{Overwritten};
ghost use Rattle.sets.specs.Largest.{largest};
ghost use Rattle.sets.specs.Tables.{padded};
ghost use Rattle.member.specs.Saying.{nothing};
ghost use Rattle.run.specs.Run.{completes_round};
ghost use Rattle.delivery.specs.Delivery.{Entered};

use crate::{Round, completes};
use laws::bit;
use sets::{WIDTH, blank_table, entry_at, is_named};

// What is heard of a code: it, or nothing.
fn heard_or_nothing(heard: bool, code: u8) -> u8
    ensures is { result ≡ cond heard code nothing }
{
    if heard { code } else { 0 }
}

// A row that holds its first `start` places and zeros after them, with the codes of the places from `start`
// to n - 1 entered too.
fn with_rest(start: usize, n: usize, codes: &[u8; WIDTH], row: [u8; WIDTH]) -> [u8; WIDTH]
    requires size { (start ≤ n) × (n ≤ largest) }
    requires cut { row ≡ padded start (λ j. get_or row j 0) }
    ensures whole { result ≡ padded n (λ j. cond (ltb j start) (get_or row j 0) (get_or codes.now j 0)) }
{
    let mut whole = row;
    whole[start..n].copy_from_slice(&codes[start..n]);
    whole
}

// The codes of the processes that complete the round, and nothing for each other. Those past the end of the
// crash rounds never crash. They are entered apart, so that the loop over the others has no test of places and
// is compiled to sixteen codes at a time.
pub fn completing_row(size: usize, this_round: &Round) -> [u8; WIDTH]
    requires size { size ≤ largest }
    ensures row { let r = this_round.now in result ≡ padded size (λ j. cond (completes_round r.round (get_or r.crashes.now j 0)) (get_or r.codes.now j 0) nothing) }
{
    let Round {
        round,
        codes,
        crashes,
        ..
    } = *this_round;
    let known = size.min(crashes.len());
    let mut row = blank_table();
    // The loop goes by the place, at which two tables are read and the row is entered: a zip of three is no plainer.
    for j in 0..known {
        row[j] = heard_or_nothing(completes(round, crashes[j]), codes[j]);
    }
    with_rest(known, size, codes, row)
}

// Stores the row at each of the first n places.
pub fn store_row(n: usize, row: [u8; WIDTH], grid: &mut [[u8; WIDTH]])
    requires size { n ≤ length grid.old }
    ensures stored { Overwritten n (λ (_ : ℕ). row) grid.old grid.new }
{
    for stored in &mut grid[..n] {
        *stored = row;
    }
}

// Enters a sender that crashes in the round at its place j of the first `size` rows: its code for the processes
// that its reach names, and nothing for the others. Most senders do not crash in the round: a reach is read only
// after the tests of the crash round, so theirs are not. What is heard is looked up by the bit of the reach: a
// jump that goes by such bits is often foreseen wrongly. And the rows are reached by their places: through an iterator
// over them a whole run was measured a tenth slower.
pub fn enter_crashing(size: usize, this_round: &Round, j: usize, grid: &mut [[u8; WIDTH]])
    requires size { (j < largest) × (size ≤ length grid.old) }
    ensures entered { let r = this_round.now in Entered size r.round j (get_or r.codes.now j 0) (get_or r.crashes.now j 0) (get_or r.reaches.now j 0) grid.old grid.new }
{
    let crash = entry_at(this_round.crashes, j);
    if crash == 0 {
        return;
    }
    if crash != this_round.round {
        return;
    }
    let reach = entry_at(this_round.reaches, j);
    let code = this_round.codes[j];
    let heard = [0u8, code];
    for i in 0..size {
        grid[i][j] = heard[bit(is_named(reach, i)) as usize];
    }
}
