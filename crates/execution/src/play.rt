// The rounds of an accepted schedule, each from the states that the round before left.
ghost use Rattle.std.specs.Prelude.{◌+◌, ◌≤◌, length};
ghost use Rattle.schedule.specs.Schedule.{schedule_lent};
ghost use Rattle.run.specs.Protocol.{fcwfa};
ghost use Rattle.execution.specs.Ran.{Plays};

use crate::Ran;
use crate::grid::{FEW, blank_rows};
use crate::round::{open_all, play_round};
use acceptance::Accepted;
use delivery::{Round, message_count};
use schedule::Tables;
use sets::{WIDTH, blank_table};

// Rounds 1 to `last`, up to the first in which nothing is sent: after it nothing happens any more. A sender that
// completes a round and says something adds n - 1 to it, at least 3 in an accepted schedule; so in such a round all
// that complete it have stopped. The grid, with a row for each process, is lent: it is formed once for a run.
// The rounds played are counted as a length, and each round's number is made a byte from that count, so that it is
// compared with sixteen crash rounds at a time: a byte that is itself counted up is compiled to a wide number.
fn play_on(schedule: &Accepted, last: usize, grid: &mut [[u8; WIDTH]]) -> Ran
    requires rounds { last ≤ schedule.now.tables.t + 1 }
    requires size { schedule.now.tables.n ≤ length grid.old }
    ensures played { Plays fcwfa (schedule_lent schedule.now.tables) last result.members result.messages }
{
    let Tables {
        n,
        t,
        votes,
        crashes,
        reaches,
    } = schedule.tables;
    let mut codes: [u8; WIDTH] = blank_table();
    let mut members = open_all(n, t, votes, &mut codes[..]);
    let mut messages: usize = 0;
    for played in 0..last {
        let round = (played + 1) as u8;
        let sent = message_count(&Round {
            n,
            round,
            codes: &codes,
            crashes,
            reaches,
        });
        if sent == 0 {
            return Ran { members, messages };
        }
        play_round(
            n,
            round,
            &mut members,
            &mut codes,
            crashes,
            reaches,
            &mut grid[..],
        );
        messages += sent;
    }
    Ran { members, messages }
}

// Rounds 1 to `last`. To form the grid is a good part of a small cluster's run, so that one has fewer rows.
// `decide` chooses its grid by the same test: one function for both would be lent what is played, and say of it what
// the two contracts say.
pub fn play(schedule: &Accepted, last: usize) -> Ran
    requires rounds { last ≤ schedule.now.tables.t + 1 }
    ensures played { Plays fcwfa (schedule_lent schedule.now.tables) last result.members result.messages }
{
    if schedule.tables.n <= FEW {
        let mut grid = blank_rows::<FEW>();
        return play_on(schedule, last, &mut grid[..]);
    }
    let mut grid = blank_rows::<WIDTH>();
    play_on(schedule, last, &mut grid[..])
}
