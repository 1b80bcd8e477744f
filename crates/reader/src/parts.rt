// The parts of a text after its head in order: the lines of the processes, and what is asked after them.
ghost use Rattle.std.specs.Prelude.{◌≡◌, ◌≤◌, take, OnOk};
ghost use Rattle.sets.specs.Largest.{largest};
ghost use Rattle.laws.specs.Answer.{next_each};
ghost use Rattle.laws.specs.Question.{answer_with_is};
ghost use Rattle.text.specs.Reading.{sizes_in, entry_questions, tail_questions};
ghost use Rattle.reader.specs.Parts.{EntriesRead};

use crate::tables::Entries;
use acceptance::{crashes_question, process_question};
use forms::{RefusedLine, read_process};
use laws::{Question, refused_by};
use lines::{from, line_start, next_line};
use text::Sizes;

// The questions of the lines of the processes, in order, and what stands there. What a question refuses is taken apart
// here and below, as in `read_head` of `forms`, and not by `map_err`.
pub fn read_processes(text: &[u8], sizes: Sizes, entries: &mut Entries) -> Result<(), RefusedLine>
    requires sizes { (sizes.n ≤ largest) × (sizes_in text.now ≡ sizes) }
    ensures asked { answer_with_is result ≡ next_each sizes.n (entry_questions text.now) }
    ensures entries { OnOk result (EntriesRead text.now sizes.n entries.new) }
{
    let mut at = line_start(text, 3);
    // By place: line i + 4 of the text and place i of three tables belong together.
    for i in 0..sizes.n {
        let Some(entry) = read_process(from(text, at), sizes.n, i) else {
            return Err(refused_by(Question::LineForm, i + 4));
        };
        if let Err(question) = process_question(
            sizes.n,
            sizes.t,
            i,
            entry.vote,
            entry.crash,
            entry.reach,
        ) {
            return Err(refused_by(question, i + 4));
        }
        entries.votes[i] = entry.vote;
        entries.crashes[i] = entry.crash;
        entries.reaches[i] = entry.reach;
        at = next_line(text, at);
    }
    Ok(())
}

// What is asked after the last line: that nothing follows, and that at most t processes crash.
pub fn read_tail(text: &[u8], sizes: Sizes, entries: &Entries) -> Result<(), RefusedLine>
    requires size { sizes.n ≤ largest }
    ensures asked { answer_with_is result ≡ tail_questions text.now sizes.n sizes.t (take sizes.n entries.now.crashes) }
{
    let n = sizes.n;
    if line_start(text, n + 3) < text.len() {
        return Err(refused_by(Question::LineForm, n + 4));
    }
    if let Err(question) = crashes_question(sizes.t, &entries.crashes[..n]) {
        return Err(refused_by(question, n + 3));
    }
    Ok(())
}
