// Reading a schedule text into tables (document 01, "Schedule text and report").
//
// `read` takes any bytes and any three tables. It asks the text's questions line by line; where each is
// answered by yes it fills the first n entries of the tables and answers n and t, and else it refuses by the
// first question whose answer is no, with its line, and leaves the tables as they were lent. It has no `requires`.
#![tactic(auto)]

mod parts;
mod tables;

ghost use Rattle.reader.specs.Answers.{Reads};

use crate::parts::{read_processes, read_tail};
use crate::tables::{Entries, fill};
use acceptance::are_of_size;
use forms::{RefusedLine, read_head};
use laws::{Question, refused_by};
use sets::{Set, WIDTH, blank_table};
use text::Sizes;

// Reads a text into three tables, and answers its sizes. Number 7 is known only after the last line, so the lines are
// read into entries of the function's own.
pub fn read(
    text: &[u8],
    votes: &mut [u8],
    crashes: &mut [u8],
    reaches: &mut [Set],
) -> Result<Sizes, RefusedLine>
    ensures read { Reads text.now votes.old crashes.old reaches.old result votes.new crashes.new reaches.new }
{
    if !are_of_size(WIDTH, votes.len(), crashes.len(), reaches.len()) {
        return Err(refused_by(Question::Tables, 0));
    }
    let sizes = read_head(text)?;
    let mut entries = Entries {
        votes: blank_table(),
        crashes: blank_table(),
        reaches: blank_table(),
    };
    read_processes(text, sizes, &mut entries)?;
    read_tail(text, sizes, &entries)?;
    fill(sizes.n, &entries, votes, crashes, reaches);
    Ok(sizes)
}
