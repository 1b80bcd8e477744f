// The fields of a line (document 01, "Schedule text and report"): what stands at the start of a
// text, read with the byte that ends it, a space or the line's LF.
//
// `number_field` reads a number of one or two digits, `digit_field` one digit, `reach_field` a
// reach of n letters 0 or 1. Each answers the value and how many bytes it takes, its end included,
// or that no such field is there. `starts_with` compares a heading letter for letter. All four take
// any bytes, answer what the definitions in specs/Fields.antt give, and have no `requires`.
#![tactic(auto)]

mod bytes;
mod letters;

ghost use Rattle.std.specs.Prelude.{◌≡◌};
ghost use Rattle.sets.specs.Largest.{largest};
ghost use Rattle.fields.specs.Fields.{starts_with, ended as Fields·ended, number_field, digit_field, reach_up_to, field_is, field_within};

use crate::bytes::has_byte;
use crate::letters::{letter_count, reach_value};
use sets::{Set, WIDTH};

// The byte that splits fields.
pub const SPACE: u8 = 32;

// A value and how many bytes it takes at the start of a text, its end included. A reach is a number, bit j for the
// letter at place j.
#[derive(Clone, Copy)]
pub struct Field<T> {
    pub value: T,
    pub used: usize,
}

// Whether the text starts with these letters.
pub fn starts_with(text: &[u8], start: &[u8]) -> bool
    ensures tested { result ≡ starts_with start.now text.now }
{
    text.starts_with(start)
}

// A field of k bytes with this value, if the byte that ends it follows.
fn ended<T: Copy>(text: &[u8], end: u8, value: T, k: usize) -> Option<Field<T>>
    ensures read { field_is text.now result ≡ Fields·ended end text.now value k }
    ensures within { field_within text.now result }
{
    if !has_byte(text, k, end) {
        return None;
    }
    Some(Field { value, used: k + 1 })
}

// A number of one or two digits without a leading zero.
pub fn number_field(text: &[u8], end: u8) -> Option<Field<u8>>
    ensures read { field_is text.now result ≡ number_field end text.now }
    ensures within { field_within text.now result }
{
    let &first = text.first()?;
    if !first.is_ascii_digit() {
        return None;
    }
    // A text may end after its first byte: no second byte is no digit.
    let second = text.get(1).copied().unwrap_or(0);
    if !second.is_ascii_digit() {
        return ended(text, end, first - b'0', 1);
    }
    if first == b'0' {
        return None;
    }
    ended(text, end, 10 * (first - b'0') + (second - b'0'), 2)
}

// One digit.
pub fn digit_field(text: &[u8], end: u8) -> Option<Field<u8>>
    ensures read { field_is text.now result ≡ digit_field end text.now }
    ensures within { field_within text.now result }
{
    let &digit = text.first()?;
    if !digit.is_ascii_digit() {
        return None;
    }
    ended(text, end, digit - b'0', 1)
}

// A reach of n letters 0 or 1. One of more letters than a set has bits is none.
pub fn reach_field(text: &[u8], n: usize, end: u8) -> Option<Field<Set>>
    ensures read { field_is text.now result ≡ reach_up_to end text.now largest n }
    ensures within { field_within text.now result }
{
    if WIDTH < n {
        return None;
    }
    if letter_count(text, n) != n {
        return None;
    }
    ended(text, end, reach_value(text, n), n)
}
