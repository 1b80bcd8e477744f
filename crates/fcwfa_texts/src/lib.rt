// Schedule texts for programs in C and Rust: `write` and `read` on numbers and tables.
//
// Each call answers 0, or the number of the first question whose answer is no; then what it was lent is as
// before, but for the line's number that a refused reading gives. It takes any numbers, bytes and tables. A
// caller owes this alone: no pointer is NULL, also where its length is 0, each is good for the number of
// entries that is said or given with it, and what is written overlaps with nothing else that the call is
// lent.
//
// Each matches its answer, and does not take the number from `laws::comes_to`, as it writes what an accepted call gives.
#![tactic(auto)]

ghost use Rattle.schedule.specs.Schedule.{schedule_of};
ghost use Rattle.fcwfa_texts.specs.Numbers.{WritesNumbers, ReadsNumbers};

use schedule::Tables;
use sets::Set;

// Writes the text of the schedule of these tables to the start of `text`, and its length to `used`. The interface for
// C fixes the parameters.
#[tactic(auto, unfolding(writer::specs::Answers::write_answer, laws::specs::Answer::answer, laws::specs::Answer::place_after))]
#[unsafe(no_mangle)]
pub extern "C" fn fcwfa_write_schedule(
    n: usize,
    t: usize,
    votes: &[u8],
    crashes: &[u8],
    reaches: &[Set],
    text: &mut [u8],
    used: &mut usize,
) -> u8
    ensures written { WritesNumbers (schedule_of n t votes.now crashes.now reaches.now) text.old used.old result text.new used.new }
{
    let tables = Tables {
        n,
        t,
        votes,
        crashes,
        reaches,
    };
    match writer::write(&tables, text) {
        Ok(length) => {
            *used = length;
            0
        }
        Err(question) => question.into(),
    }
}

// Reads a text into the first n entries of three tables of 64: `read` gets n and t at its first two places,
// or the line of a refusal at its third. The interface for C fixes the parameters.
#[unsafe(no_mangle)]
pub extern "C" fn fcwfa_read_schedule(
    text: &[u8],
    votes: &mut [u8],
    crashes: &mut [u8],
    reaches: &mut [Set],
    read: &mut [usize; 3],
) -> u8
    ensures tables_read { ReadsNumbers text.now votes.old crashes.old reaches.old read.old result votes.new crashes.new reaches.new read.new }
{
    match reader::read(text, votes, crashes, reaches) {
        Ok(sizes) => {
            *read = [sizes.n, sizes.t, read[2]];
            0
        }
        Err(refusal) => {
            *read = [read[0], read[1], refusal.back];
            refusal.question.into()
        }
    }
}
