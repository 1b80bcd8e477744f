// The tables of a reading: those of its own, which it reads the lines into, and the three that are lent to it.
ghost use Rattle.std.specs.Prelude.{◌≡◌, ◌≤◌, length};
ghost use Rattle.sets.specs.Largest.{largest};
ghost use Rattle.reader.specs.Parts.{Fills};

use sets::{Set, WIDTH};

// What the lines of the processes say, with an entry for each process of the largest cluster. Three tables and not one
// of `text::Entry`: question 7 takes the crash rounds as a slice, and each lent table is filled by one copy.
#[derive(Clone, Copy)]
pub struct Entries {
    pub votes: [u8; WIDTH],
    pub crashes: [u8; WIDTH],
    pub reaches: [Set; WIDTH],
}

// Fills the first n entries of the lent tables with what was read, and leaves the others. That n is at most `largest`
// is asked here and in parts.rt, and is no ghost field of a value around `text::Sizes`: each clause names the sizes, and
// would have to take them out of it.
pub fn fill(n: usize, entries: &Entries, votes: &mut [u8], crashes: &mut [u8], reaches: &mut [Set])
    requires size { n ≤ largest }
    requires long { (length votes.old ≡ largest) × (length crashes.old ≡ largest) × (length reaches.old ≡ largest) }
    ensures filled { Fills n entries.now votes.old crashes.old reaches.old votes.new crashes.new reaches.new }
{
    votes[..n].copy_from_slice(&entries.votes[..n]);
    crashes[..n].copy_from_slice(&entries.crashes[..n]);
    reaches[..n].copy_from_slice(&entries.reaches[..n]);
}
