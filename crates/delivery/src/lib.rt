// Who hears whom in a round, and what is sent in it (document 01, "Who hears whom"), from the codes that the
// processes say: nothing here knows a protocol.
//
// `completes` tells whether a process completes a round, `deliver` forms the rows of a round, and
// `message_count` counts its messages. Each takes anything and answers what the definitions of the crate `run`
// give; none has a `requires`. A cluster of more processes than a set has bits for is cut there (`fitting`), and
// a table reads as 0 past its end.
#![tactic(auto)]

mod copies;
mod rows;

ghost use Rattle.std.specs.Prelude.{◌≡◌, ◌*◌, ◌≤◌, ◌<◌, length, get_or};
ghost use Rattle.sets.specs.Largest.{largest, fitting as Largest·fitting};
ghost use Rattle.run.specs.Run.{completes_round};
ghost use Rattle.run.specs.Report.{messages_of};
ghost use Rattle.delivery.specs.Delivery.{Delivers};

use crate::copies::{crashing_copies, others, speakers};
use crate::rows::{completing_row, enter_crashing, store_row};
use sets::{Set, WIDTH, fitting};

// Whether a process with this crash round completes the round.
pub fn completes(round: u8, crash: u8) -> bool
    ensures tested { result ≡ completes_round round crash }
{
    crash == 0 || round < crash
}

// A round of a cluster: how many processes it has, the number of the round, the code that each says in it, and the crash
// rounds and reaches. Each table goes by the place of the process.
#[derive(Clone, Copy)]
pub struct Round<'a> {
    pub n: usize,
    pub round: u8,
    pub codes: &'a [u8; WIDTH],
    pub crashes: &'a [u8],
    pub reaches: &'a [Set],
}

// Stores the rows of the round, of the codes that are said in it, each at the place of its process and with
// zeros after its codes. The rows of the grid from place n on stay as they are, and a grid with fewer rows than
// processes stays as it is.
pub fn deliver(this_round: &Round, grid: &mut [[u8; WIDTH]])
    ensures delivered { let r = this_round.now in Largest·fitting r.n ≤ length grid.old → Delivers (Largest·fitting r.n) r.round (λ j. get_or r.codes.now j 0) r.crashes.now r.reaches.now grid.old grid.new }
    ensures kept { length grid.old < Largest·fitting this_round.now.n → grid.new ≡ grid.old }
{
    let size = fitting(this_round.n);
    if grid.len() < size {
        return;
    }
    let row = completing_row(size, this_round);
    store_row(size, row, grid);
    // The loop goes by the place of the sender: three tables are read there, and a column of the grid is entered.
    for j in 0..size {
        enter_crashing(size, this_round, j, grid);
    }
}

// How many messages the round has, from the codes that are said in it. A sender that completes the round adds
// n - 1, a copy for each other process, and one that crashes in it the ones of its reach, each only if it says
// something.
pub fn message_count(this_round: &Round) -> usize
    ensures counted { let r = this_round.now in result ≡ messages_of r.crashes.now r.reaches.now r.round (λ j. get_or r.codes.now j 0) (Largest·fitting r.n) }
    ensures few { result ≤ largest * largest }
{
    let size = fitting(this_round.n);
    let row = completing_row(size, this_round);
    let mut messages = others(size) * speakers(row);
    // The loop goes by the place of the sender, at which three tables are read. The sum must be shown to fit at each step, so
    // the loop keeps the bound as its invariant.
    for j in 0..size {
        messages += crashing_copies(this_round, j);
    }
    messages
}
