// The kinds of output: the report, the outcome and the reasons of an accepted schedule, and a refusal.
ghost use Rattle.std.specs.Prelude.{◌≡◌, List, ℕ, true, ◌≤◌, length, take};
ghost use Rattle.lines.specs.Lines.{line_of};
ghost use Rattle.laws.specs.Question.{question_number};
ghost use Rattle.sets.specs.Largest.{largest};
ghost use Rattle.schedule.specs.Schedule.{schedule_of, schedule_lent};
ghost use Rattle.schedule.specs.Questions.{answers_of, question};
ghost use Rattle.run.specs.Protocol.{fcwfa};
ghost use Rattle.text.specs.Reading.{longest};
ghost use Rattle.text.specs.Output.{report_shown, outcome_shown, reasons_shown, refusal_text};
ghost use Rattle.buffer.specs.Puts.{Puts};
ghost use Rattle.output.specs.Answers.{zeros, output_size, output_is, shown_of};

use crate::reasons::put_reasons;
use crate::{OUTPUT, Output, Wanted};
use acceptance::Accepted;
use buffer::Writer;
use forms::RefusedLine;
use report::{put_outcome, put_reasons_heading, put_refusal, put_report};
use schedule::Tables;
use sets::{Set, WIDTH, blank_table};
use text::Sizes;

// A buffer for the output.
fn blank_output() -> [u8; OUTPUT]
    ensures zeros { result ≡ zeros output_size }
{
    [0u8; OUTPUT]
}

// The output that a closure puts into a blank buffer, where it fits. A closure that holds a schedule, whose type names a
// lifetime, tells nothing here of what it puts.
fn written<F: FnOnce(&mut Writer)>(put: F) -> Output
    requires callable { F.IsAlwaysCallable put }
    ensures output { (part : List ℕ) → ((before after : _) → F.post put before tt after → Puts before.now after.now part) → length part ≤ output_size → result ≡ output_is part }
{
    let mut bytes = blank_output();
    let mut out = Writer {
        buffer: &mut bytes,
        at: 0,
    };
    put(&mut out);
    let length = out.at;
    Output { bytes, length }
}

// The report of a schedule; the answer tables are lent for its run.
fn completed(schedule: &Accepted, decisions: &mut [u8], decided: &mut [u8]) -> Output
    requires long { answers_of schedule.now.tables.n (length decisions.old) (length decided.old) ≡ true }
    ensures output { result ≡ output_is (report_shown fcwfa (schedule_lent schedule.now.tables)) }
{
    let counts = simulator::simulate(&schedule.tables, decisions, decided).unwrap();
    // By itself, as the closure may not hold the schedule.
    let t = schedule.tables.t;
    written(|out| put_report(out, t, counts, decisions, decided))
}

// The same, with tables of its own.
#[tactic(auto, using(crate::proofs::Given::n_small))]
fn reported(schedule: &Accepted) -> Output
    ensures output { result ≡ output_is (report_shown fcwfa (schedule_lent schedule.now.tables)) }
{
    let n = schedule.tables.n;
    let mut decisions: [u8; WIDTH] = blank_table();
    let mut decided: [u8; WIDTH] = blank_table();
    completed(schedule, &mut decisions[..n], &mut decided[..n])
}

// The outcome of a schedule.
fn concluded(schedule: &Accepted) -> Output
    ensures output { result ≡ output_is (outcome_shown fcwfa (schedule_lent schedule.now.tables)) }
{
    let outcome = simulator::conclude(&schedule.tables).unwrap();
    written(|out| put_outcome(out, outcome))
}

// The reasons of a schedule. Not by `written`, as the closure would hold the schedule.
fn explained(schedule: &Accepted) -> Output
    ensures output { result ≡ output_is (reasons_shown (schedule_lent schedule.now.tables)) }
{
    let mut bytes = blank_output();
    let mut out = Writer {
        buffer: &mut bytes,
        at: 0,
    };
    put_reasons_heading(&mut out);
    put_reasons(&mut out, schedule);
    let length = out.at;
    Output { bytes, length }
}

// What is wanted of the accepted schedule in the first n entries of three tables.
pub fn of_tables(
    wanted: Wanted,
    sizes: Sizes,
    votes: [u8; WIDTH],
    crashes: [u8; WIDTH],
    reaches: [Set; WIDTH],
) -> Output
    requires size { sizes.n ≤ largest }
    requires accepted { question (schedule_of sizes.n sizes.t (take sizes.n votes) (take sizes.n crashes) (take sizes.n reaches)) largest true ≡ 0 }
    ensures output { result ≡ output_is (shown_of wanted (schedule_of sizes.n sizes.t (take sizes.n votes) (take sizes.n crashes) (take sizes.n reaches))) }
{
    let n = sizes.n;
    let tables = Tables {
        n,
        t: sizes.t,
        votes: &votes[..n],
        crashes: &crashes[..n],
        reaches: &reaches[..n],
    };
    let schedule = Accepted { tables };
    match wanted {
        Wanted::Report => reported(&schedule),
        Wanted::Outcome => concluded(&schedule),
        Wanted::Reasons => explained(&schedule),
    }
}

// The three lines of a refusal, the last of which is the line of the text that it is about.
pub fn refused(text: &[u8], refusal: RefusedLine) -> Output
    requires short { length (line_of refusal.back text.now) ≤ longest }
    ensures output { result ≡ output_is (refusal_text (question_number refusal.question) refusal.back (line_of refusal.back text.now)) }
{
    let k = refusal.back;
    let number = u8::from(refusal.question);
    let line = lines::line(text, k);
    written(|out| put_refusal(out, number, k, line))
}
