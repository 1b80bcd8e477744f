// Tables with an entry for each process.
ghost use Rattle.std.specs.Prelude.{◌≡◌, length, get_or, replicate};
ghost use Rattle.sets.specs.Largest.{largest};

use crate::{Set, WIDTH};

// What stands in a table. At a place that nobody has, past the table's end too, the blank entry is read. It is named
// here, since contracts speak of it: the library's `Default` says what holds of a value, and names none.
pub trait Blank: Copy {
    ghost blank: { Self };

    fn blank() -> Self
        ensures is { result ≡ blank };
}

impl Blank for u8 {
    ghost blank = { 0 };

    fn blank() -> u8 {
        0u8
    }
}

impl Blank for Set {
    ghost blank = { 0 };

    fn blank() -> Set {
        0u64
    }
}

// The entry at place i of a table.
pub fn entry_at<T: Blank>(table: &[T], i: usize) -> T
    ensures entry { result ≡ get_or table.now i T.blank }
{
    table.get(i).copied().unwrap_or(T::blank())
}

// A table of blank entries.
pub fn blank_table<T: Blank>() -> [T; WIDTH]
    ensures blanks { result ≡ replicate largest T.blank }
    ensures long { length result ≡ largest }
{
    [T::blank(); WIDTH]
}
