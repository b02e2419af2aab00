// One rule as the numbers of its line, and as the words of a list.
ghost use Rattle.std.specs.Prelude.{◌+◌, ◌*◌, ◌≤◌, ◌<◌, ◌≡◌, length};
ghost use Rattle.text.specs.Addresses.{octets_of};
ghost use Rattle.rules.specs.Words.{rule_words, most_rules};
ghost use Rattle.rule_file.specs.Records.{rule_of, rule_values, rule_fits, rule_at};

use rules::check::rule_good;
use rules::words::RULE_WORDS;
use text::address::{address_of, octets_fit};
use text::words::MOST_FIELDS;

// Whether the numbers of a line are those of rule `i`: its number, octets, and a good rule.
#[tactic(auto, unfolding(crate::specs::Records::rule_fits), using(crate::proofs::Lists::one_good))]
pub(crate) fn rule_fits(i: usize, values: [u32; MOST_FIELDS]) -> bool
    ensures { result ≡ rule_fits i values }
{
    if values[0] as usize != i {
        return false;
    }
    if !octets_fit(values[1], values[2], values[3], values[4]) {
        return false;
    }
    if !octets_fit(values[6], values[7], values[8], values[9]) {
        return false;
    }
    let rule = rule_of(values);
    rule_good(&rule, 0)
}

// The words of the rule with these numbers.
#[tactic(auto, unfolding(crate::specs::Records::rule_of))]
pub(crate) fn rule_of(values: [u32; MOST_FIELDS]) -> [u32; RULE_WORDS]
    ensures { result ≡ rule_of values }
{
    let source = address_of(values[1], values[2], values[3], values[4]);
    let destination = address_of(values[6], values[7], values[8], values[9]);
    [
        source,
        values[5],
        destination,
        values[10],
        values[11],
        values[12],
        values[13],
        values[14],
        values[15],
        values[16],
        values[17],
    ]
}

// The words of rule `i` of a list.
pub(crate) fn rule_at(rules: &[u32], i: usize) -> [u32; RULE_WORDS]
    requires { i * rule_words + rule_words ≤ length rules.now }
    ensures { result ≡ rule_at rules.now i }
{
    let mut rule = [0u32; RULE_WORDS];
    let start = i * RULE_WORDS;
    let end = start + RULE_WORDS;
    rule.copy_from_slice(&rules[start..end]);
    rule
}

// The numbers of the line of rule `i`, with these words.
#[tactic(auto, unfolding(crate::specs::Records::rule_values))]
pub(crate) fn values_of(i: usize, rule: [u32; RULE_WORDS]) -> [u32; MOST_FIELDS]
    requires { i < most_rules }
    ensures { result ≡ rule_values i rule }
{
    let s = octets_of(rule[0]);
    let d = octets_of(rule[2]);
    [
        i as u32, s[0], s[1], s[2], s[3], rule[1], d[0], d[1], d[2], d[3], rule[3], rule[4],
        rule[5], rule[6], rule[7], rule[8], rule[9], rule[10],
    ]
}

// The four octets of an address.
fn octets_of(address: u32) -> [u32; 4]
    ensures { result ≡ octets_of address }
{
    address.to_be_bytes().map(u32::from)
}
