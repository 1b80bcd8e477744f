// Sets of processes, and the largest cluster (document 01, "Cabinets, rounds, crashes").
//
// A set is a number with a bit for each process: bit i for the process at place i, counted from 0. The
// width of a set and the largest n stand here and nowhere else; every table of a cluster has that many
// entries. Each function takes anything and answers what the definitions in specs/ give; none has a
// `requires`.
#![tactic(auto)]

mod table;

ghost use Rattle.std.specs.Prelude.{◌≡◌};
ghost use Rattle.std.specs.Int.Count.{ones as Count·ones};
ghost use Rattle.sets.specs.Largest.{fitting as Largest·fitting};
ghost use Rattle.sets.specs.Sets.{names, up_to, names_others};

pub use table::{Blank, blank_table, entry_at};

// The largest n that is accepted: the bits of a set, and the entries of a table.
pub const WIDTH: usize = 64;

// A set of processes.
pub type Set = u64;

// How many of n processes a set has bits for, and a table entries. It goes by a test: by the library's `min` a whole run
// was measured to take 3 percent more instructions.
pub fn fitting(n: usize) -> usize
    ensures fit { result ≡ Largest·fitting n }
{
    if n <= WIDTH { n } else { WIDTH }
}

// Whether the set names the process at place i. Nobody past its bits is named.
pub fn is_named(set: Set, i: usize) -> bool
    ensures tested { result ≡ names set i }
{
    if WIDTH <= i {
        return false;
    }
    (set >> (i as Set)) & 1 == 1
}

// Whether the set names only processes 1 to n. From its width on every set does.
pub fn is_up_to(set: Set, n: usize) -> bool
    ensures tested { result ≡ up_to n set }
{
    if WIDTH <= n {
        return true;
    }
    if 0 < set >> (n as Set) {
        return false;
    }
    true
}

// Whether the set names only processes 1 to n, and not the one at place i.
pub fn is_of_others(set: Set, n: usize, i: usize) -> bool
    ensures tested { result ≡ names_others n i set }
{
    is_up_to(set, n) && !is_named(set, i)
}

// How many processes the set names.
pub fn ones(set: Set) -> usize
    ensures counted { result ≡ Count·ones set }
{
    let named = u64::count_ones(set);
    named as usize
}
