// The lines of a report, of an outcome, of reasons and of a refusal (document 01, "Schedule text and report";
// document 02, K6 and K9), written into a lent buffer.
//
// `put_report` writes the report of given counts and tables, `put_outcome` the two lines of an outcome,
// `put_reasons_heading` the line of names above reasons, `put_reason` the line of one of them, and
// `put_refusal` the three lines of a refusal. Each takes anything, writes what specs/Shown.antt and the
// definitions of the crate `text` give, and has no `requires`. What is given is neither read nor run here.
#![tactic(auto)]

mod reasons;

ghost use Rattle.std.specs.Prelude.{◌≡◌, List, true, ℕ, ◌+◌, ◌^◌, ◌≤◌, ◌<◌, length};
ghost use Rattle.simulator.specs.Answers.{given_by};
ghost use Rattle.text.specs.Output.{decision_letter, decided_fields, decision_line, decision_lines, counts_line, report_text, refusal_text};
ghost use Rattle.buffer.specs.Puts.{Puts};
ghost use Rattle.report.specs.Shown.{are_decisions, shown, written_outcome};

use buffer::Writer;
use fields::SPACE;
use lines::LF;
pub use reasons::{put_reason, put_reasons_heading};
use simulator::{Counts, Outcome};

const DASH: u8 = b'-';

// What a process decided: 0 or 1, or 2 for none. It is a number, as the lent tables and the definitions have it.
#[derive(Clone, Copy)]
struct Decision {
    value: u8,
    ghost one: { value ≤ 2 },
}

// The lent tables of a report: what each process decided, and its round. They are of one length, and the first holds
// decisions alone.
#[derive(Clone, Copy)]
struct Decided<'a> {
    decisions: &'a [u8],
    decided: &'a [u8],
    ghost size: { length decided.now ≡ length decisions.now },
    ghost values: { are_decisions decisions.now ≡ true },
}

// The letter of a decision that is 0 or 1, and `-` for none.
#[tactic(auto, unfolding(text::specs::Output::decision_letter))]
fn decision_letter(decision: Decision) -> u8
    ensures is { result ≡ decision_letter decision.value }
{
    if decision.value == 2 {
        return DASH;
    }
    b'0' + decision.value
}

// Writes a decision and its round, at the end of a line.
fn put_decided(out: &mut Writer, decision: Decision, round: u8)
    ensures written { Puts out.old out.new (decided_fields decision.value round) }
{
    out.put_byte(decision_letter(decision));
    out.put_byte(SPACE);
    out.put_field(round as usize, LF);
}

// Writes the line of the process at place i.
fn put_decision(out: &mut Writer, i: usize, decision: Decision, round: u8)
    requires small { i + 1 < 2 ^ 64 }
    ensures written { Puts out.old out.new (decision_line i decision.value round) }
{
    out.put_field(i + 1, SPACE);
    put_decided(out, decision, round);
}

// Writes the lines of the processes in order.
fn put_decisions(out: &mut Writer, lent: &Decided)
    ensures written { Puts out.old out.new (decision_lines (length lent.now.decisions.now) lent.now.decisions.now lent.now.decided.now) }
{
    for (i, (&value, &round)) in lent.decisions.iter().zip(lent.decided).enumerate() {
        put_decision(out, i, Decision { value }, round);
    }
}

// Writes the line of n, t and the counts.
fn put_counts(out: &mut Writer, n: usize, t: usize, counts: Counts)
    ensures written { (decisions rounds : List ℕ) → Puts out.old out.new (counts_line n t (given_by counts decisions rounds)) }
{
    out.put_field(n, SPACE);
    out.put_field(t, SPACE);
    out.put_field(counts.f, SPACE);
    out.put_field(counts.first, SPACE);
    out.put_field(counts.last, SPACE);
    out.put_field(counts.messages, LF);
}

// Whether each of these is a decision: 0, 1 or 2 for none.
fn are_decisions(decisions: &[u8]) -> bool
    ensures tested { result ≡ are_decisions decisions.now }
{
    decisions.iter().all(|&decision| decision <= 2)
}

// Writes the lines of the report of these counts and tables.
fn put_lines(out: &mut Writer, t: usize, counts: Counts, lent: &Decided)
    ensures written { Puts out.old out.new (report_text (length lent.now.decisions.now) t (given_by counts lent.now.decisions.now lent.now.decided.now)) }
{
    out.put(b"n t f first last messages\n");
    put_counts(out, lent.decisions.len(), t, counts);
    out.put(b"id decision round\n");
    put_decisions(out, lent);
}

// Writes what the bench gives for a schedule of n processes that bears t crashes: `decisions` holds the
// decision of each process, 2 for none, and `decided` its round, 0 for none. Tables that no run gives, of two
// lengths or with what is no decision, are not written.
#[tactic(auto, unfolding(crate::specs::Shown::shown))]
pub fn put_report(out: &mut Writer, t: usize, counts: Counts, decisions: &[u8], decided: &[u8])
    ensures written { Puts out.old out.new (shown t counts decisions.now decided.now) }
{
    if decided.len() != decisions.len() {
        return;
    }
    if !are_decisions(decisions) {
        return;
    }
    put_lines(out, t, counts, &Decided { decisions, decided });
}

// Writes the two lines of an outcome. What is no decision is not written.
pub fn put_outcome(out: &mut Writer, outcome: Outcome)
    ensures written { Puts out.old out.new (written_outcome outcome) }
{
    if outcome.decision > 2 {
        return;
    }
    let decision = Decision {
        value: outcome.decision,
    };
    out.put(b"decision round\n");
    put_decided(out, decision, outcome.round);
}

// Writes the three lines of a refusal: its heading, the number and the line's number, and the line. The number is not a
// `Question`: the contract is for any number, and a `Question` would ask more of a caller.
pub fn put_refusal(out: &mut Writer, number: u8, k: usize, line: &[u8])
    ensures written { Puts out.old out.new (refusal_text number k line.now) }
{
    out.put(b"refused line\n");
    out.put_field(number as usize, SPACE);
    out.put_field(k, LF);
    out.put(line);
    out.put_byte(LF);
}
