// Matching: which field of one rule is the first to disagree with one header, and so whether the rule matches it.
ghost use Rattle.std.specs.Prelude.{◌<◌, ◌≡◌, length};
ghost use Rattle.fields.specs.Words.{field_count};
ghost use Rattle.rules.specs.Words.{rule_count};
ghost use Rattle.rules.specs.Matching.{first_miss, matches, rule_matches};

use crate::words::{RULE_WORDS, field_of, rule_there};
use fields::field::field_matches;
use fields::header::FIELDS;

// Whether rule `r` is wholly lent, the header has its words, and the rule matches it.
pub fn rule_matches(rules: &[u32], header: &[u32], r: usize) -> bool
    ensures { result ≡ rule_matches rules.now header.now r }
{
    rule_there(rules, r) && header.len() == FIELDS && matches(rules, header, r)
}

// Whether rule `r` matches the header: no field disagrees.
pub(crate) fn matches(rules: &[u32], header: &[u32], r: usize) -> bool
    requires { (r < rule_count rules.now) × (length header.now ≡ field_count) }
    ensures { result ≡ matches rules.now header.now r }
{
    first_miss(rules, header, r) == FIELDS
}

// The lowest field of rule `r` that disagrees with the header, or the number of fields. Every search rests on this. Its
// words are taken out once: so it stays small enough to become part of the loops that call it.
pub(crate) fn first_miss(rules: &[u32], header: &[u32], r: usize) -> usize
    requires { (r < rule_count rules.now) × (length header.now ≡ field_count) }
    ensures { result ≡ first_miss rules.now header.now r }
{
    let start = r * RULE_WORDS;
    let end = start + RULE_WORDS;
    miss_in_rule(&rules[start..end], header)
}

// The same of the words of one rule, which is rule 0 of them.
fn miss_in_rule(rule: &[u32], header: &[u32]) -> usize
    requires { (0 < rule_count rule.now) × (length header.now ≡ field_count) }
    ensures { result ≡ first_miss rule.now header.now 0 }
{
    for f in 0..FIELDS {
        if !field_matches(field_of(rule, 0, f), header[f]) {
            return f;
        }
    }
    FIELDS
}
