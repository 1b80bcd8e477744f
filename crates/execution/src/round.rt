// All members, which stand side by side in an array, and the codes that they say in the round to come: their
// opening, and what a round makes of them. A cluster of more processes than a set has bits for is cut there
// (`fitting`), a table reads as 0 past its end, and a refused call of a member keeps its state.
ghost use Rattle.std.specs.Prelude.{◌≡◌, ℕ, ◌≤◌, ◌<◌, length, get_or};
ghost use Rattle.laws.specs.Filled.{Overwritten};
ghost use Rattle.sets.specs.Largest.{fitting as Largest·fitting};
ghost use Rattle.run.specs.Run.{code_said, state_after};
ghost use Rattle.execution.specs.Calls.{calls};
ghost use Rattle.execution.specs.Rounds.{Opens, PlaysRound};

use crate::calls::{Turn, heard, is_stopped, opened};
use delivery::{Round, completes, deliver};
use member::Member;
use sets::{Set, WIDTH, blank_table, entry_at, fitting};

// The members of all processes, opened, and nobody at the places after them. `codes` gets what they say. They are two
// arrays, and not one of `Turn`: document 01 wants an array of members, and a row is formed from codes that stand side by
// side.
pub fn open_all(n: usize, t: usize, votes: &[u8], codes: &mut [u8]) -> [Member; WIDTH]
    requires room { Largest·fitting n ≤ length codes.old }
    ensures opened { Opens calls (Largest·fitting n) t votes.now result }
    ensures said { Overwritten (Largest·fitting n) (code_said calls result) codes.old codes.new }
{
    let size = fitting(n);
    let mut members: [Member; WIDTH] = blank_table();
    // The loop goes by the place: it gives the member's number, a vote is read at it, and two tables are entered.
    for i in 0..size {
        let first = opened(size, t, i + 1, entry_at(votes, i));
        members[i] = first.state;
        codes[i] = first.code;
    }
    members
}

// A member after the round: it hears its row if it completes the round and is not stopped.
fn next_turn(round: u8, crash: u8, before: Turn, row: &[u8]) -> Turn
    ensures state { result.state ≡ state_after calls round crash before.state row.now }
{
    if !completes(round, crash) {
        return before;
    }
    if is_stopped(before.state) {
        return before;
    }
    heard(before, row)
}

// One round of all members: their rows are formed in the grid from the codes that they say, and each that
// completes the round and is not stopped hears its own. `codes` gets what they say in the next round: so no
// member is asked what it says but where a row has changed it. Nothing is counted here. The members and their codes
// are changed where they stand: an array that is given and given back is copied whole in each round. So it is not
// lent a `Round`, which lends the codes to be read only. That the grid has a row for each process is a clause here and no
// part of the grid's type, since `deliver` says what it does with a smaller one.
pub fn play_round(
    n: usize,
    round: u8,
    members: &mut [Member; WIDTH],
    codes: &mut [u8; WIDTH],
    crashes: &[u8],
    reaches: &[Set],
    grid: &mut [[u8; WIDTH]],
)
    requires room { (Largest·fitting n ≤ length grid.old) × (Largest·fitting n ≤ length codes.old) }
    requires said_before { (i : ℕ) → i < Largest·fitting n → get_or codes.old i 0 ≡ code_said calls members.old i }
    ensures played { PlaysRound calls (Largest·fitting n) round members.old crashes.now reaches.now members.new }
    ensures said { Overwritten (Largest·fitting n) (code_said calls members.new) codes.old codes.new }
{
    let size = fitting(n);
    let this_round = Round {
        n,
        round,
        codes: &*codes,
        crashes,
        reaches,
    };
    deliver(&this_round, &mut grid[..]);
    // The loop goes by the place: the member and its code are changed where they stand, and two tables are read there.
    for i in 0..size {
        let before = Turn {
            state: members[i],
            code: codes[i],
        };
        let row = &grid[i][..];
        let turn = next_turn(round, entry_at(crashes, i), before, &row[..size]);
        members[i] = turn.state;
        codes[i] = turn.code;
    }
}
