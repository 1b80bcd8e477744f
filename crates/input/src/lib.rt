// Reading into a lent buffer until it is full or nothing more comes.
#![tactic(auto)]

ghost use Rattle.std.specs.Prelude.{◌≡◌, length, take};
ghost use Rattle.std.specs.Io.KnownBytes.{Consumes};
ghost use Rattle.io.specs.Counts.{IsPrefixLen};
ghost use Rattle.input.specs.Received.{count_of, EndsFor};

use std::io::Read;

// A read failed, and so many bytes stand at the buffer's start.
#[derive(Clone, Copy)]
pub struct ReadFailed {
    pub count: usize,
}

// How many bytes stand at the buffer's start, whyever reading ended.
pub fn count_in(received: Result<usize, ReadFailed>) -> usize
    ensures counted { result ≡ count_of received }
{
    match received {
        Ok(count) => count,
        Err(failed) => failed.count,
    }
}

// Reads until the buffer is full, the input ends or a read fails. The bytes at its start are the next ones of the
// input, in order, and none of them is lost.
pub fn read_full<R: Read>(input: &mut R, buffer: &mut [u8]) -> Result<usize, ReadFailed>
    ensures in_bounds { IsPrefixLen (count_of result) buffer.new }
    ensures bytes { Consumes (R.remaining input.old) (R.remaining input.new) (take (count_of result) buffer.new) }
    ensures ended { EndsFor result (length buffer.new) (R.remaining input.new) }
{
    let mut done = 0;
    // it goes on by as much as each read gives, so no range counts its turns
    while done < buffer.len() {
        match input.read(&mut buffer[done..]) {
            Ok(0) => return Ok(done),
            Ok(count) => done += count,
            Err(_) => return Err(ReadFailed { count: done }),
        }
    }
    Ok(done)
}
