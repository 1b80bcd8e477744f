// The lines of the reasons of an accepted schedule (document 02, K9): why each of its processes decided.
ghost use Rattle.std.specs.Prelude.{◌≡◌, ℕ, ◌<◌};
ghost use Rattle.schedule.specs.Schedule.{schedule_lent};
ghost use Rattle.run.specs.Why.{why_of};
ghost use Rattle.text.specs.Output.{reason_lines};
ghost use Rattle.buffer.specs.Puts.{Puts};

use acceptance::Accepted;
use buffer::Writer;
use explanation::explain;
use member::Reason;
use report::put_reason;

// Why the process at place i decided: an accepted schedule is not refused, and neither is the number of one of its
// processes.
fn reason_of(schedule: &Accepted, i: usize) -> Reason
    requires process { i < schedule.now.tables.n }
    ensures reason { result ≡ why_of (schedule_lent schedule.now.tables) i }
{
    explain(&schedule.tables, i + 1).unwrap()
}

// Writes the lines of all processes in order. Each number in them fits a byte.
pub fn put_reasons(out: &mut Writer, schedule: &Accepted)
    ensures written { Puts out.old out.new (let s = schedule_lent schedule.now.tables in reason_lines s.n (why_of s)) }
    ensures small { let s = schedule_lent schedule.now.tables in (i : ℕ) → i < s.n → (why_of s i).number < 256 }
{
    for i in 0..schedule.tables.n {
        put_reason(out, i + 1, reason_of(schedule, i));
    }
}
