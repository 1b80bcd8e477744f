// Tests on numbers that every layer asks, and the questions before work by name.
//
// `Question` has the eighteen questions, each with its number, and `Refused` what a refusal gives back with its
// question; `refused_by` makes one, and `comes_to` tells the number of an answer. `is_within` and `bit` are tests.
// The laws of sums, counts and questions are in proofs/.
#![tactic(auto)]

mod question;

ghost use Rattle.std.specs.Prelude.{◌≡◌};
ghost use Rattle.laws.specs.Test.{within};
ghost use Rattle.laws.specs.Below.{bit as Below·bit};

pub use question::{Question, Refused, comes_to, refused_by};

// Whether x is from lo to hi.
pub fn is_within(lo: usize, x: usize, hi: usize) -> bool
    ensures tested { result ≡ within lo x hi }
{
    lo <= x && x <= hi
}

// 1 for a test that holds, else 0: what a count grows by.
pub fn bit(test: bool) -> u8
    ensures counted { result ≡ Below·bit test }
{
    u8::from(test)
}
