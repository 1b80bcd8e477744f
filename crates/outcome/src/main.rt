// The program `outcome`: reads one schedule text from standard input and writes its outcome, or its
// refusal, to standard output. All that is decided is decided in `output::printed`.
//
// The array has one byte more than a text may have, 8,193, so that a text that is too long is noticed:
// as many bytes of it are refused as all of it is.
//
// The three programs differ in what is wanted and in their names. What they share is in `input` and `output`; one function for the
// rest would be open to callers, and a contract of its own would say of devices what no other clause does.
//
// Where the output could not be written, it says so in one line on standard error. Its exit status is 0 all the same.
#![tactic(auto)]

use forms::LONGEST;
use output::Wanted;
use std::io::{Eprint, Print};

fn main(rt: HostRuntime) {
    let mut input = [0u8; LONGEST + 1];
    let count = input::count_in(input::read_full(&mut rt.stdin(), &mut input));
    let answer = output::printed(&input[..count], Wanted::Outcome);
    let bytes = answer.bytes;
    let length = answer.length;
    if rt.write_all(&bytes[..length]).is_err() {
        let _ = rt.eprintln("outcome: the output could not be written");
    }
}
