// Twins: two rules of a list with equal words, their actions aside. A mix of these words picks a rule's slot, so twins
// share a slot, and a rule is compared only with the earlier rules of its own. These are chained, each to the one
// before it. However the slots fall, the answer is the same; where many rules share one it takes longer.
ghost use Rattle.std.specs.Prelude.{◌≤◌, ◌<◌, ◌≡◌, length};
ghost use Rattle.rules.specs.Words.{rule_count, most_rules};
ghost use Rattle.rules.specs.Twins.{same_words, earlier_twin, twins_verdict};
ghost use Rattle.rules.specs.Chains.{slot_of, latest_in, Chained, SlotsAhead};

use crate::words::{MATCH_WORDS, MOST_RULES, RULE_WORDS, word_of};
use lent::wide;
use refusals::Refusal;

// The number of slots.
const SLOTS: usize = 512;

// What each word of a rule but its action is multiplied by in its mix: odd numbers of 28 bits, so that the sum has no
// more than 64.
const FACTORS: [usize; MATCH_WORDS] = [
    173068673, 265731749, 217751185, 70124201, 95462505, 247485163, 123291233, 226572091,
    125563705, 253646873,
];

// What a mix is divided by: its lowest 24 bits are dropped.
const DROPPED: usize = 1 << 24;

// 11 at the lowest rule that has the words of an earlier one. `latest` has for each slot the place of its latest rule.
// `before` has for each rule that is chained the place of the one before it in its slot: its number and 1 more, or 0
// for none. For each other rule it has the slot.
pub(crate) fn twins_verdict(rules: &[u32]) -> Result<(), Refusal>
    requires { rule_count rules.now ≤ most_rules }
    ensures { result ≡ twins_verdict rules.now }
{
    let mut before = [0u32; MOST_RULES];
    put_slots(rules, &mut before);
    let mut latest = [0u32; SLOTS];
    let count = rules.len() / RULE_WORDS;
    for rule in 0..count {
        let slot = wide(before[rule]);
        let place = latest[slot];
        let earlier = twin_in(rules, &before, place, rule);
        if earlier < rule {
            return Err(Refusal::RuleHasTwin { rule, earlier });
        }
        before[rule] = place;
        latest[slot] = rule as u32 + 1;
    }
    Ok(())
}

// The rule with the words of rule `r` in the chain that begins at a place; `r` where there is none.
fn twin_in(rules: &[u32], before: &[u32], place: u32, r: usize) -> usize
    requires { (r < rule_count rules.now) × Chained rules.now (slot_of rules.now) before.now r ×
        (place ≡ latest_in (slot_of rules.now) r (slot_of rules.now r)) }
    ensures { result ≡ earlier_twin rules.now r }
{
    let mut next = wide(place);
    // The loop follows the links of a chain, so no range or list has its places in order.
    while 0 < next {
        let q = next - 1;
        if same_words(rules, q, r) {
            return q;
        }
        next = wide(before[q]);
    }
    r
}

// Whether two rules have equal words, their actions aside.
fn same_words(rules: &[u32], q: usize, r: usize) -> bool
    requires { (q < rule_count rules.now) × (r < rule_count rules.now) }
    ensures { result ≡ same_words rules.now q r }
{
    // The rules that are compared mostly differ in an early word, and `==` of slices was slower.
    (0..MATCH_WORDS).all(|j| word_of(rules, q, j) == word_of(rules, r, j))
}

// Puts the slot of each rule. A loop by itself works them out, so that no sum waits for what is found in a chain.
fn put_slots(rules: &[u32], before: &mut [u32])
    requires { (rule_count rules.now ≤ most_rules) × (length before.old ≡ most_rules) }
    ensures { SlotsAhead rules.now (slot_of rules.now) before.new 0 }
{
    let count = rules.len() / RULE_WORDS;
    for r in 0..count {
        before[r] = slot_of(rules, r) as u32;
    }
}

// The slot of a rule.
fn slot_of(rules: &[u32], r: usize) -> usize
    requires { r < rule_count rules.now }
    ensures { result ≡ slot_of rules.now r }
{
    let mut mix = 0;
    for (k, factor) in FACTORS.iter().enumerate() {
        mix += wide(word_of(rules, r, k)) * factor;
    }
    mix / DROPPED % SLOTS
}
