// The rule check: whether a list holds whole rules, not too many, each of them good, and no two alike.
ghost use Rattle.std.specs.Prelude.{◌<◌, ◌≡◌};
ghost use Rattle.rules.specs.Words.{rule_count};
ghost use Rattle.rules.specs.Good.{fields_good, good_to, rule_good, rules_verdict, list_verdict_to, list_verdict};
ghost use Rattle.rules.specs.RuleCheck.{RuleChecked};

use crate::twins::twins_verdict;
use crate::words::{LARGEST_ACTION, MOST_RULES, RULE_WORDS, action_of, field_of, rule_there};
use fields::field::field_good;
use fields::header::FIELDS;
use refusals::Refusal;

// The number of rules of a good list. Nothing is written.
pub fn rule_check(rules: &[u32]) -> Result<usize, Refusal>
    ensures { RuleChecked rules.now result }
{
    list_verdict(rules)?;
    Ok(rules.len() / RULE_WORDS)
}

// Whether a list is good.
pub fn list_verdict(rules: &[u32]) -> Result<(), Refusal>
    ensures { result ≡ list_verdict rules.now }
{
    verdict_to(rules, LARGEST_ACTION)
}

// Whether a list is good, with actions of at most `most`: its words and its rules first, and then twins.
pub fn verdict_to(rules: &[u32], most: u32) -> Result<(), Refusal>
    ensures { result ≡ list_verdict_to most rules.now }
{
    rules_verdict(rules, most)?;
    twins_verdict(rules)
}

// Whether a list is good, twins aside. The number of words is looked at first, and then the rules, from the lowest.
fn rules_verdict(rules: &[u32], most: u32) -> Result<(), Refusal>
    ensures { result ≡ rules_verdict most rules.now }
{
    if rules.len() % RULE_WORDS != 0 {
        return Err(Refusal::RuleWordsWrong);
    }
    if MOST_RULES * RULE_WORDS < rules.len() {
        return Err(Refusal::RuleWordsWrong);
    }
    let count = rules.len() / RULE_WORDS;
    for rule in 0..count {
        if !good_to(rules, rule, most) {
            return Err(Refusal::RuleNotGood { rule });
        }
    }
    Ok(())
}

// Whether rule `r` is wholly lent and good.
pub fn rule_good(rules: &[u32], r: usize) -> bool
    ensures { result ≡ rule_good rules.now r }
{
    rule_there(rules, r) && good_to(rules, r, LARGEST_ACTION)
}

// Whether rule `r` is good, with an action of at most `most`.
fn good_to(rules: &[u32], r: usize, most: u32) -> bool
    requires { r < rule_count rules.now }
    ensures { result ≡ good_to most rules.now r }
{
    fields_good(rules, r) && action_of(rules, r) <= most
}

// Whether each field of rule `r` is good.
fn fields_good(rules: &[u32], r: usize) -> bool
    requires { r < rule_count rules.now }
    ensures { result ≡ fields_good rules.now r }
{
    (0..FIELDS).all(|f| field_good(field_of(rules, r, f)))
}
