// Why a member decides by a row: the rule that is met, and the number that goes with it (document 02, K9).
ghost use Rattle.std.specs.Prelude.{◌≡◌};
ghost use Rattle.member.specs.Reasons.{is_decision, lowest_sender, rule_heard, rule_number, reason_heard};

use crate::heard::HeardRow;
use crate::rules::rule_met;
use member::{Reason, Rule};

// Whether a code is a decided message.
fn is_decision(code: u8) -> bool
    ensures tested { result ≡ is_decision code }
{
    code == 3 || code == 4
}

// The place of the first decided message of a row. The row's length stands for none, and not an `Option`: the definition
// `lowest_sender` has it so.
fn lowest_sender(row: &[u8]) -> usize
    ensures found { result ≡ lowest_sender row.now }
{
    row.iter()
        .position(|&heard| is_decision(heard))
        .unwrap_or(row.len())
}

// The rule that a member meets by a row: none if it is decided, or in round 1.
fn rule_heard(heard: &HeardRow) -> Rule
    ensures met { result ≡ rule_heard heard.now.member heard.now.counts }
{
    let m = heard.member;
    if m.decided != 0 {
        return Rule::NoRule;
    }
    if m.round == 1 {
        return Rule::NoRule;
    }
    rule_met(heard)
}

// The number that goes with a rule, from a row.
fn rule_number(rule: Rule, heard: &HeardRow) -> u8
    ensures is { result ≡ rule_number rule heard.now.member.n heard.now.row.now }
{
    let k = heard.counts;
    let n = heard.member.n;
    let row = heard.row;
    match rule {
        Rule::Told => (lowest_sender(row) + 1) as u8,
        Rule::Quiet => n - (k.zeros + k.ones),
        Rule::RoundT => k.zeros + k.ones,
        _ => 0,
    }
}

// Why a member decides by a row.
pub fn reason(heard: &HeardRow) -> Reason
    ensures is { result ≡ reason_heard heard.now.member heard.now.row.now }
{
    let rule = rule_heard(heard);
    Reason {
        rule,
        number: rule_number(rule, heard),
    }
}
