// The lines of reasons (document 02, K9): why each process decided, or in which round it crashed.
ghost use Rattle.text.specs.Output.{reasons_heading, rule_word, number_shown, reason_line};
ghost use Rattle.buffer.specs.Puts.{Puts};

use buffer::Writer;
use fields::SPACE;
use lines::LF;
use member::{Reason, Rule};

// Writes the word for a rule.
#[tactic(auto, unfolding(text::specs::Output::rule_word))]
fn put_word(out: &mut Writer, rule: Rule)
    ensures written { Puts out.old out.new (rule_word rule) }
{
    match rule {
        Rule::Told => out.put(b"told"),
        Rule::ZerosOnly => out.put(b"zeros"),
        Rule::Quiet => out.put(b"quiet"),
        Rule::RoundT => out.put(b"round-t"),
        Rule::LastRound => out.put(b"last"),
        Rule::NoRule => out.put(b"crashed"),
    }
}

// Writes the number that goes with a rule, at the end of a line, and `-` for a rule that has none.
#[tactic(auto, unfolding(text::specs::Output::number_shown))]
fn put_number(out: &mut Writer, rule: Rule, number: u8)
    ensures written { Puts out.old out.new (number_shown rule number) }
{
    match rule {
        Rule::ZerosOnly | Rule::LastRound => out.put(b"-\n"),
        Rule::Told | Rule::Quiet | Rule::RoundT | Rule::NoRule => {
            out.put_field(number as usize, LF)
        }
    }
}

// Writes the line of the process with this number.
pub fn put_reason(out: &mut Writer, id: usize, why: Reason)
    ensures written { Puts out.old out.new (reason_line id why) }
{
    let rule = why.rule;
    out.put_field(id, SPACE);
    put_word(out, rule);
    out.put_byte(SPACE);
    put_number(out, rule, why.number);
}

// Writes the line of names above them.
pub fn put_reasons_heading(out: &mut Writer)
    ensures written { Puts out.old out.new reasons_heading }
{
    out.put(b"id rule number\n");
}
