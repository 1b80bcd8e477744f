// The lines of a schedule text by their forms (document 01, "Schedule text and report").
//
// `read_head` asks the question of a text's length and those of lines 1 to 3, and answers n and t, as
// text/specs/Reading.antt has them. `read_process` reads the line of one process and answers what
// specs/Answers.antt gives. Both take any bytes and any numbers, and have no `requires`.
#![tactic(auto)]

ghost use Rattle.std.specs.Prelude.{◌≡◌, is_some};
ghost use Rattle.laws.specs.Answer.{accepted, and_next};
ghost use Rattle.laws.specs.Question.{answer_with_is};
ghost use Rattle.sets.specs.Largest.{largest};
ghost use Rattle.fields.specs.Fields.{starts_with};
ghost use Rattle.text.specs.Forms.{sizes_at};
ghost use Rattle.text.specs.Reading.{longest, sizes_in, head_questions};
ghost use Rattle.forms.specs.Answers.{value_of, entry_up_to};

use fields::{SPACE, starts_with};
use laws::{Question, Refused, refused_by};
use lines::{LF, from, line_start};
use text::{Entry, Sizes};

// How many bytes a text may have.
pub const LONGEST: usize = 8192;

// A refusal that says which line it is about: what it gives back is the line's number, 0 for none.
pub type RefusedLine = Refused<usize>;

// A heading line, at the start of what is handed over, compared letter for letter.
fn read_heading(text: &[u8], heading: &[u8]) -> Option<()>
    ensures read { is_some result ≡ starts_with heading.now text.now }
{
    starts_with(text, heading).then_some(())
}

// Line 2, at the start of what is handed over: n and t.
fn read_sizes(text: &[u8]) -> Option<Sizes>
    ensures read { result ≡ value_of (sizes_at text.now) }
{
    let n = fields::number_field(text, SPACE)?;
    let t = fields::number_field(from(text, n.used), LF)?;
    Some(Sizes {
        n: n.value as usize,
        t: t.value as usize,
    })
}

// The question of the text's length, and those of lines 1 to 3.
pub fn read_head(text: &[u8]) -> Result<Sizes, RefusedLine>
    ensures asked { answer_with_is result ≡ and_next (head_questions text.now largest longest) (accepted (sizes_in text.now)) }
{
    if LONGEST < text.len() {
        return Err(refused_by(Question::TextLength, 0));
    }
    let Some(()) = read_heading(text, b"n t\n") else {
        return Err(refused_by(Question::LineForm, 1));
    };
    let Some(sizes) = read_sizes(from(text, line_start(text, 1))) else {
        return Err(refused_by(Question::LineForm, 2));
    };
    // Not by `map_err`: the question would come back through a closure's clauses, and the proof of that, which was
    // tried, did not close.
    if let Err(question) = member::size_question(sizes.n, sizes.t) {
        return Err(refused_by(question, 2));
    }
    let third = from(text, line_start(text, 2));
    let Some(()) = read_heading(third, b"id vote crash reach\n") else {
        return Err(refused_by(Question::LineForm, 3));
    };
    Ok(sizes)
}

// The line of the process at place i, at the start of what is handed over: its own number i + 1, vote,
// crash round and reach of n letters. One of more letters than a set has bits is none.
pub fn read_process(text: &[u8], n: usize, i: usize) -> Option<Entry>
    ensures read { result ≡ value_of (entry_up_to largest n i text.now) }
{
    let id = fields::number_field(text, SPACE)?;
    if id.value == 0 {
        return None;
    }
    if (id.value - 1) as usize != i {
        return None;
    }
    let after_id = from(text, id.used);
    let vote = fields::digit_field(after_id, SPACE)?;
    let after_vote = from(after_id, vote.used);
    let crash = fields::number_field(after_vote, SPACE)?;
    let after_crash = from(after_vote, crash.used);
    let reach = fields::reach_field(after_crash, n, LF)?;
    Some(Entry {
        vote: vote.value,
        crash: crash.value,
        reach: reach.value,
    })
}
