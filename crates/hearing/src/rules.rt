// What hearing does: which rule an undecided member meets, and what its state becomes.
ghost use Rattle.std.specs.Prelude.{◌≡◌, ◌≤◌, ◌<◌};
ghost use Rattle.member.specs.Hearing.{zeros_only, quiet, enough, rule_met, moved as Hearing·moved, first_estimate, lowered, told_value, by_rule, becomes};

use crate::codes::is_told;
use crate::heard::HeardRow;
use member::{Member, Rule, Tally};

fn is_zeros_only(r: u8, k: Tally) -> bool
    ensures tested { result ≡ zeros_only r k }
{
    r == 2 && k.ones == 0
}

fn is_quiet(heard: &HeardRow) -> bool
    requires later { 2 ≤ heard.now.member.round }
    ensures tested { let m = heard.now.member in result ≡ quiet m.n m.t m.round heard.now.counts }
{
    let Member { n, t, round: r, .. } = heard.member;
    let k = heard.counts;
    r <= t - 1 && n - (k.zeros + k.ones) <= r - 2
}

fn is_enough(heard: &HeardRow) -> bool
    ensures tested { let m = heard.now.member in result ≡ enough m.n m.t m.round heard.now.counts }
{
    let Member { n, t, round: r, .. } = heard.member;
    let k = heard.counts;
    r == t && n - t + 1 <= k.zeros + k.ones
}

// The rule that an undecided member meets, from round 2 on.
pub fn rule_met(heard: &HeardRow) -> Rule
    requires later { 2 ≤ heard.now.member.round }
    ensures met { let m = heard.now.member in result ≡ rule_met m.n m.t m.round heard.now.counts }
{
    let Member { t, round: r, .. } = heard.member;
    let k = heard.counts;
    if is_told(k) {
        return Rule::Told;
    }
    if is_zeros_only(r, k) {
        return Rule::ZerosOnly;
    }
    if is_quiet(heard) {
        return Rule::Quiet;
    }
    if is_enough(heard) {
        return Rule::RoundT;
    }
    if r == t + 1 {
        return Rule::LastRound;
    }
    Rule::NoRule
}

// The state of the next round, with this estimate and this decided round.
fn moved(m: Member, estimate: u8, decided: u8) -> Member
    requires room { m.round < 255 }
    ensures went { result ≡ Hearing·moved m estimate decided }
{
    Member {
        round: m.round + 1,
        estimate,
        decided,
        ..m
    }
}

fn first_estimate(heard: &HeardRow) -> u8
    ensures is { let m = heard.now.member in result ≡ first_estimate m.n m.estimate heard.now.counts }
{
    let Member { n, estimate, .. } = heard.member;
    let k = heard.counts;
    if k.zeros + k.ones < n {
        return 0;
    }
    if 0 < k.zeros {
        return 0;
    }
    estimate
}

fn lower(estimate: u8, k: Tally) -> u8
    ensures is { result ≡ lowered estimate k }
{
    if 0 < k.zeros { 0 } else { estimate }
}

fn told_value(k: Tally) -> u8
    ensures is { result ≡ told_value k }
{
    if 0 < k.aborts { 0 } else { 1 }
}

fn by_rule(rule: Rule, m: Member, k: Tally) -> Member
    requires room { m.round < 255 }
    ensures went { result ≡ by_rule rule m k }
{
    match rule {
        Rule::Told => moved(m, told_value(k), m.round),
        Rule::NoRule => moved(m, lower(m.estimate, k), 0),
        _ => moved(m, lower(m.estimate, k), m.round),
    }
}

// What a member becomes by a row.
pub fn next(heard: &HeardRow) -> Member
    ensures went { result ≡ becomes heard.now.member heard.now.counts }
{
    let m = heard.member;
    let k = heard.counts;
    if m.decided != 0 {
        return moved(m, m.estimate, m.decided);
    }
    if m.round == 1 {
        return moved(m, first_estimate(heard), 0);
    }
    by_rule(rule_met(heard), m, k)
}
