// The grid in which the rows of a round are formed, a row for each process. It is formed once for a run.
ghost use Rattle.std.specs.Prelude.{◌≡◌, replicate};
ghost use Rattle.sets.specs.Largest.{largest};

use sets::{WIDTH, blank_table};

// The rows of the smaller grid.
pub const FEW: usize = 16;

// The grid before the first round of a run, with so many rows.
pub fn blank_rows<const N: usize>() -> [[u8; WIDTH]; N]
    ensures blank { result ≡ replicate N (replicate largest 0) }
{
    [blank_table(); N]
}
