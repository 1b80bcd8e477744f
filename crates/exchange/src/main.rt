// Shows members exchanging rounds: case D of document 01, n = 4, t = 3, all votes 1, where process 1
// crashes in round 1 and reaches process 2 alone. Then calls for each refusal number.
#![tactic(auto)]

use laws::comes_to;
use member::Member;
use sets::{Set, is_named};
use std::fmt::{self, Display, Formatter};
use std::io::Print;

// A digit for each process.
#[derive(Clone, Copy)]
struct Digits([u8; 4]);

impl Display for Digits {
    fn fmt<W: fmt::Write>(&self, f: &mut Formatter<W>) -> fmt::Result {
        let [a, b, c, d] = self.0;
        write!(f, "{a}{b}{c}{d}")
    }
}

// A line that could not be written is left out: each line after it is tried, and the exit status is 0 all the same.
fn main(rt: HostRuntime) {
    let _ = println!(rt; "round id says row estimate decided silent");
    play_all(&rt);
    let _ = println!(rt; "call number");
    refused_openings(&rt);
    refused_states(&rt);
    refused_rows(&rt);
}

// Rounds 1 to t + 1, each from the states that the round before left.
fn play_all(rt: &impl Print) {
    let mut members = [1, 2, 3, 4].map(opened);
    for round in 1..=4 {
        let next = play(rt, members, round);
        members = next;
    }
}

fn a_member(round: u8, decided: u8) -> Member {
    Member {
        n: 4,
        t: 3,
        id: 1,
        round,
        estimate: 1,
        decided,
        silent: 0,
    }
}

// One in round 2 with this silent set, which names its own number or a process above 4 where it is out of range.
fn naming(silent: Set) -> Member {
    Member {
        silent,
        ..a_member(2, 0)
    }
}

fn opened(id: usize) -> Member {
    member::open(4, 3, id, 1).unwrap_or(a_member(0, 0))
}

// What a member says, and 0 where its saying is refused. `explanation` has the same line with a contract; a program has
// none, and a function for both would be this one call itself.
fn said(m: Member) -> u8 {
    member::say(m).unwrap_or(0)
}

// What the sender's message is in the row of the process at `hearer`: process 1 sends in round 1 alone, and to
// process 2 alone.
fn heard(m: Member, sender: usize, hearer: usize, round: usize) -> u8 {
    if sender == 0 && (round != 1 || hearer != 1) {
        return 0;
    }
    said(m)
}

fn row_of(members: [Member; 4], hearer: usize, round: usize) -> [u8; 4] {
    std::array::from_fn(|sender| heard(members[sender], sender, hearer, round))
}

// One round of all: every row comes from the states at its start. Process 1 is printed in its crash round alone,
// in which it hears nothing.
fn play(rt: &impl Print, members: [Member; 4], round: usize) -> [Member; 4] {
    if round == 1 {
        show(rt, members[0], "-", round, members[0]);
    }
    let mut next = members;
    // By place, since a member and its row belong to it, and a line is printed for each in order.
    for place in 1..4 {
        next[place] = step(rt, members[place], row_of(members, place, round), round);
    }
    next
}

// A process hears its row of the round, and is printed with what it becomes. One that has stopped keeps its state.
fn step(rt: &impl Print, m: Member, row: [u8; 4], round: usize) -> Member {
    match hearing::hear(m, &row) {
        Ok(next) => {
            show(rt, m, Digits(row), round, next);
            next
        }
        Err(refused) => {
            show(rt, m, "-", round, refused.back);
            refused.back
        }
    }
}

// The silent set, with 1 for each process that it names.
fn silent(m: Member) -> Digits {
    Digits([0, 1, 2, 3].map(|place| u8::from(is_named(m.silent, place))))
}

// One line of the first table: the round, the process, what it said and heard, and what it becomes.
fn show(rt: &impl Print, before: Member, row: impl Display + Drop, round: usize, after: Member) {
    let _ = println!(rt;
        "{round} {} {} {row} {} {} {}",
        before.id,
        said(before),
        after.estimate,
        after.decided,
        silent(after)
    );
}

// Opening with each limit broken in turn, and with numbers at the far end of their types.
fn refused_openings(rt: &impl Print) {
    let openings = [
        (3, 3, 1, 1),
        (usize::MAX, 3, 1, 1),
        (4, 4, 1, 1),
        (4, usize::MAX, 1, 1),
        (4, 3, 0, 1),
        (4, 3, usize::MAX, 1),
        (4, 3, 1, 2),
        (4, 3, 1, 255),
    ];
    for (n, t, id, vote) in openings {
        let _ = println!(rt; "open {}", comes_to(&member::open(n, t, id, vote)));
    }
}

// States that are not in range, said and heard.
fn refused_states(rt: &impl Print) {
    show_say(rt, a_member(0, 0));
    show_say(rt, a_member(255, 255));
    show_hear(rt, a_member(5, 0), b"\x02\x02\x02\x02");
    show_hear(rt, a_member(255, 255), b"");
    show_hear(rt, a_member(5, 4), b"\x00\x00\x00\x00");
    show_say(rt, naming(1));
    show_say(rt, naming(16));
    show_hear(rt, naming(u64::MAX), b"\x02\x02\x02\x02");
}

fn show_say(rt: &impl Print, m: Member) {
    let _ = println!(rt; "say {}", comes_to(&member::say(m)));
}

// Rows with each rule broken in turn, and one that is accepted.
fn refused_rows(rt: &impl Print) {
    show_hear(rt, a_member(1, 0), b"\x02\x02\x02");
    show_hear(rt, a_member(1, 0), b"\x02\x05\x02\x02");
    show_hear(rt, a_member(1, 0), b"\x01\x02\x02\x02");
    show_hear(rt, a_member(2, 0), b"\x02\x04\x02\x02");
    show_hear(rt, a_member(3, 0), b"\x02\x03\x04\x02");
    show_hear(rt, a_member(3, 0), b"\x02\x03\x03\x02");
}

fn show_hear(rt: &impl Print, m: Member, row: &[u8]) {
    let answer = hearing::hear(m, row).map_err(|refused| refused.question);
    let _ = println!(rt; "hear {}", comes_to(&answer));
}
