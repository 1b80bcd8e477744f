// The length of a text, from its schedule, which is accepted.
ghost use Rattle.std.specs.Prelude.{◌≡◌, ◌≤◌, ◌<◌, get_or};
ghost use Rattle.schedule.specs.Schedule.{schedule_lent};
ghost use Rattle.text.specs.Written.{process_length, text_length};

use acceptance::Accepted;
use buffer::digit_count;

// How many bytes the line of the process at place i has, its LF included.
fn process_length(schedule: &Accepted, i: usize) -> usize
    requires process { i < schedule.now.tables.n }
    ensures is { let s = schedule_lent schedule.now.tables in result ≡ process_length s.n i (get_or s.votes i 0) (get_or s.crashes i 0) }
    ensures short { result ≤ 76 }
{
    let tables = schedule.tables;
    let own = digit_count(i + 1);
    let voted = digit_count(tables.votes[i] as usize);
    let crashed = digit_count(tables.crashes[i] as usize);
    own + voted + crashed + (tables.n + 4)
}

// How many bytes the whole text has. The headings have 4 and 20.
pub fn text_length(schedule: &Accepted) -> usize
    ensures is { let s = schedule_lent schedule.now.tables in result ≡ text_length s.n s.t s.votes s.crashes }
{
    let tables = schedule.tables;
    let sizes = digit_count(tables.n) + digit_count(tables.t) + 2;
    let mut total: usize = 4 + sizes + 20;
    for i in 0..tables.n {
        total += process_length(schedule, i);
    }
    total
}
