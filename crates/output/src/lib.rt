// From a schedule text to the bytes of its report (document 01, "Schedule text and report"), of its outcome
// (document 02, K6) or of the reasons of its processes (K9).
//
// `printed` takes any bytes and answers the whole output: what is wanted of an accepted text, or the three
// lines of a refusal. It has no `requires`.
#![tactic(auto)]

mod reasons;
mod whole;

ghost use Rattle.std.specs.Prelude.{◌≡◌};
ghost use Rattle.io.specs.Counts.{IsPrefixLen};
ghost use Rattle.sets.specs.Largest.{largest};
ghost use Rattle.text.specs.Reading.{longest};
ghost use Rattle.text.specs.Output.{output_of};
ghost use Rattle.output.specs.Answers.{output_is, shown_of, OutputKeepsPromises};

use forms::LONGEST;
use sets::{Set, WIDTH, blank_table};

// How many bytes an output has at most. The longest is the refusal of a line that is as long as a text
// may be: 64 more are enough for the lines before it.
pub const OUTPUT: usize = LONGEST + 64;

// The output's bytes with zeros after them, and how many they are: without a heap no value is as long as its bytes.
#[derive(Clone, Copy)]
pub struct Output {
    pub bytes: [u8; OUTPUT],
    pub length: usize,
}

// What is wanted of an accepted text: the program `bench` prints its report, `outcome` its outcome, and `why`
// the reasons of its processes. With a closure in its place the contracts could say no more than the closure's own
// contract says.
#[derive(Clone, Copy)]
pub enum Wanted {
    Report,
    Outcome,
    Reasons,
}

// The whole output for a text.
pub fn printed(text: &[u8], wanted: Wanted) -> Output
    ensures output { result ≡ output_is (output_of (shown_of wanted) text.now largest longest) }
    ensures fits { IsPrefixLen result.length result.bytes }
    ensures promises { OutputKeepsPromises wanted text.now result }
{
    let mut votes: [u8; WIDTH] = blank_table();
    let mut crashes: [u8; WIDTH] = blank_table();
    let mut reaches: [Set; WIDTH] = blank_table();
    match reader::read(text, &mut votes, &mut crashes, &mut reaches) {
        Ok(sizes) => whole::of_tables(wanted, sizes, votes, crashes, reaches),
        Err(refusal) => whole::refused(text, refusal),
    }
}
