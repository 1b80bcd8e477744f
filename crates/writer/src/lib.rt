// Writing the text of a schedule into a lent buffer (document 02, K2).
//
// `write` takes any tables and buffer. It asks the questions of a schedule in tables and then whether the
// buffer is long enough; where each is answered by yes it writes the text that the reader takes and answers
// its length, and else it refuses by the first question whose answer is no and leaves the buffer as it was
// lent. It has no `requires`.
#![tactic(auto)]

mod lengths;
mod processes;

ghost use Rattle.std.specs.Prelude.{◌≡◌};
ghost use Rattle.schedule.specs.Schedule.{schedule_lent};
ghost use Rattle.text.specs.Written.{text_of};
ghost use Rattle.buffer.specs.Puts.{Puts};
ghost use Rattle.writer.specs.Answers.{WritesSchedule};

use crate::lengths::text_length;
use crate::processes::put_processes;
use acceptance::{Accepted, accept, no_answers};
use buffer::Writer;
use fields::SPACE;
use laws::Question;
use lines::LF;
use schedule::Tables;

// Writes the four parts of the text: the headings, the sizes, and the lines of the processes.
fn put_text(out: &mut Writer, schedule: &Accepted)
    ensures written { Puts out.old out.new (text_of (schedule_lent schedule.now.tables)) }
{
    let tables = schedule.tables;
    out.put(b"n t\n");
    out.put_field(tables.n, SPACE);
    out.put_field(tables.t, LF);
    out.put(b"id vote crash reach\n");
    put_processes(out, schedule);
}

// The text of the schedule in these tables, at the start of the buffer, and its length. What stands behind it stays.
pub fn write(tables: &Tables, buffer: &mut [u8]) -> Result<usize, Question>
    ensures written { WritesSchedule (schedule_lent tables.now) buffer.old result buffer.new }
{
    let schedule = accept(tables, no_answers(tables.n))?;
    if buffer.len() < text_length(&schedule) {
        return Err(Question::Room);
    }
    let mut out = Writer { buffer, at: 0 };
    put_text(&mut out, &schedule);
    Ok(out.at)
}
