// The lines of the processes.
ghost use Rattle.std.specs.Prelude.{◌≡◌, ◌<◌, get_or};
ghost use Rattle.schedule.specs.Schedule.{schedule_lent};
ghost use Rattle.text.specs.Written.{letters_of, process_line, process_lines};
ghost use Rattle.buffer.specs.Puts.{Puts};

use acceptance::Accepted;
use buffer::Writer;
use fields::SPACE;
use lines::LF;
use sets::{Set, is_named};

// Writes the n letters of a reach: the one at place j is 1 if the process at place j is named, else 0.
fn put_letters(out: &mut Writer, n: usize, reach: Set)
    ensures written { Puts out.old out.new (letters_of n reach) }
{
    for j in 0..n {
        let letter = if is_named(reach, j) { b'1' } else { b'0' };
        out.put_byte(letter);
    }
}

// Writes the line of the process at place i.
fn put_process(out: &mut Writer, schedule: &Accepted, i: usize)
    requires process { i < schedule.now.tables.n }
    ensures written { let s = schedule_lent schedule.now.tables in Puts out.old out.new (process_line s.n i (get_or s.votes i 0) (get_or s.crashes i 0) (get_or s.reaches i 0)) }
{
    let tables = schedule.tables;
    let (vote, crash) = (tables.votes[i], tables.crashes[i]);
    out.put_field(i + 1, SPACE);
    out.put_field(vote as usize, SPACE);
    out.put_field(crash as usize, SPACE);
    put_letters(out, tables.n, tables.reaches[i]);
    out.put_byte(LF);
}

// Writes the lines of the processes in order.
pub fn put_processes(out: &mut Writer, schedule: &Accepted)
    ensures written { let s = schedule_lent schedule.now.tables in Puts out.old out.new (process_lines s.n s.votes s.crashes s.reaches) }
{
    for i in 0..schedule.tables.n {
        put_process(out, schedule, i);
    }
}
