// Shows the simulator at work on the marked schedules of document 01: the report of each case A to K,
// then, for each refused schedule, its place in the table and the number that the simulator answers, 0
// for one that passes. The tables are those of the crates `marked` and `refusals`, with the results that
// are due; an answer with other results would be followed by a line that says so.
#![tactic(auto)]

use buffer::Writer;
use laws::{Question, comes_to};
use marked::Case;
use refusals::Refusal;
use schedule::Tables;
use simulator::Counts;
use std::io::Print;

// Every case has n = 4 and t = 3.
const N: usize = 4;

const T: usize = 3;

// A line that could not be written is left out: each line after it is tried, and the exit status is 0 all the same.
fn main(rt: HostRuntime) {
    show_cases(&rt);
    let _ = println!(rt; "refused entry number");
    show_refusals(&rt);
}

// Every case of the table, in order, under its letter.
fn show_cases(rt: &impl Print) {
    for (letter, case) in ('A'..='Z').zip((0..).map_while(marked::case_at)) {
        let _ = println!(rt; "case {letter}");
        show_run(rt, &case);
    }
}

// The run of a case, and whether the table has the same. The simulator fills the two answer tables.
fn show_run(rt: &impl Print, case: &Case) {
    let tables = Tables {
        n: N,
        t: T,
        votes: &case.votes,
        crashes: &case.crashes,
        reaches: &case.reaches,
    };
    let mut decisions = [0u8; N];
    let mut rounds = [0u8; N];
    let Ok(counts) = simulator::simulate(&tables, &mut decisions, &mut rounds) else {
        return show_difference(rt, false);
    };
    show_report(rt, counts, decisions, rounds);
    show_difference(rt, is_as_marked(case, counts, decisions, rounds));
}

// The report, in the lines that `bench` writes. It has less than 256 bytes.
fn show_report(rt: &impl Print, counts: Counts, decisions: [u8; N], rounds: [u8; N]) {
    let mut bytes = [0u8; 256];
    let mut out = Writer {
        buffer: &mut bytes,
        at: 0,
    };
    report::put_report(&mut out, T, counts, &decisions, &rounds);
    let end = out.at;
    let _ = rt.write_all(&bytes[..end]);
}

// Whether these are the results that the table has for the case. The counts are compared one by one, since the table
// has them in other widths.
fn is_as_marked(case: &Case, counts: Counts, decisions: [u8; N], rounds: [u8; N]) -> bool {
    decisions == case.decisions
        && rounds == case.rounds
        && counts.f == usize::from(case.f)
        && counts.first == usize::from(case.first)
        && counts.last == usize::from(case.last)
        && counts.messages == usize::from(case.messages)
}

// Every refused schedule of the table, in order: its place, counted from 1, and the number that the simulator answers.
fn show_refusals(rt: &impl Print) {
    for (k, refusal) in (0..).map_while(refusals::refusal_at).enumerate() {
        let answer = answer_to(&refusal);
        let _ = println!(rt; "{} {}", k + 1, comes_to(&answer));
        show_difference(rt, answer == refusal.answer);
    }
}

// What the simulator answers. The tables have four places, and the processes are in the first n. They are given
// whole: with n = 4 that is the same, and fewer processes are refused before the tables are asked about.
fn answer_to(refusal: &Refusal) -> Result<(), Question> {
    let tables = Tables {
        n: refusal.n,
        t: refusal.t,
        votes: &refusal.votes,
        crashes: &refusal.crashes,
        reaches: &refusal.reaches,
    };
    let mut decisions = [0u8; 4];
    let mut rounds = [0u8; 4];
    simulator::simulate(&tables, &mut decisions, &mut rounds)?;
    Ok(())
}

// A line more where the table has other results.
fn show_difference(rt: &impl Print, is_same: bool) {
    if !is_same {
        let _ = println!(rt; "differs from the table");
    }
}
