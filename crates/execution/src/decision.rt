// The rounds of an accepted schedule up to the first in which some process decides. They are the rounds that
// play.rt plays; no later one is played, and no message is counted.
ghost use Rattle.std.specs.Prelude.{◌≡◌, ◌≤◌, length};
ghost use Rattle.sets.specs.Largest.{largest};
ghost use Rattle.schedule.specs.Schedule.{schedule_lent};
ghost use Rattle.run.specs.Protocol.{fcwfa};
ghost use Rattle.run.specs.Outcome.{lowest_decided};
ghost use Rattle.execution.specs.Decision.{FirstDecides};

use crate::FirstDecision;
use crate::grid::{FEW, blank_rows};
use crate::round::{open_all, play_round};
use acceptance::Accepted;
use member::Member;
use schedule::Tables;
use sets::{WIDTH, blank_table};

// The place of the lowest-numbered of n members that has decided. n stands for none, and not an `Option`: the definition
// `lowest_decided` has it so, and the outcome's own definitions compare that place with n.
fn lowest_decided(n: usize, members: &[Member; WIDTH]) -> usize
    requires size { n ≤ largest }
    ensures found { result ≡ lowest_decided n members.now }
{
    members[..n]
        .iter()
        .position(|m| m.decided != 0)
        .unwrap_or(n)
}

// Rounds from 1 on, until some process has decided: in an accepted schedule one does. The loop is a `while`, since what
// a round leaves ends it and not their count: a `for` over the rounds would need an answer for the end of its count too,
// which is never reached. The grid, with a row for each process, is lent.
fn decide_on(schedule: &Accepted, grid: &mut [[u8; WIDTH]]) -> FirstDecision
    requires size { schedule.now.tables.n ≤ length grid.old }
    ensures decided { FirstDecides fcwfa (schedule_lent schedule.now.tables) result.round result.member }
{
    let Tables {
        n,
        t,
        votes,
        crashes,
        reaches,
    } = schedule.tables;
    let mut codes: [u8; WIDTH] = blank_table();
    let mut members = open_all(n, t, votes, &mut codes[..]);
    let mut played: usize = 0;
    let mut place = n;
    while place == n {
        let round = (played + 1) as u8;
        play_round(
            n,
            round,
            &mut members,
            &mut codes,
            crashes,
            reaches,
            &mut grid[..],
        );
        place = lowest_decided(n, &members);
        played += 1;
    }
    let decider = members[place];
    let ended = played as u8;
    FirstDecision {
        round: ended,
        member: decider,
    }
}

// Rounds from 1 on, until some process has decided. A small cluster has a grid of fewer rows, as for a whole run.
pub fn decide(schedule: &Accepted) -> FirstDecision
    ensures decided { FirstDecides fcwfa (schedule_lent schedule.now.tables) result.round result.member }
{
    if schedule.tables.n <= FEW {
        let mut grid = blank_rows::<FEW>();
        return decide_on(schedule, &mut grid[..]);
    }
    let mut grid = blank_rows::<WIDTH>();
    decide_on(schedule, &mut grid[..])
}
