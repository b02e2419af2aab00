// What a list of entries lacks: the rules whose box meets a box, and whose numbers are not among the entries.
ghost use Rattle.std.specs.Prelude.{◌<◌, ◌≡◌};
ghost use Rattle.facts.specs.Lists.{has};
ghost use Rattle.fields.specs.Words.{field_count};
ghost use Rattle.fields.specs.Boxes.{meets};
ghost use Rattle.rules.specs.Words.{rule_count};
ghost use Rattle.rules.specs.Matching.{rule_box};
ghost use Rattle.rules.specs.Lacking.{lacked, lacking};

use crate::words::{RULE_WORDS, field_of};
use fields::bounds::Bounds;
use fields::field::field_meets;
use fields::header::FIELDS;
use lent::wide;

// The lowest rule that the entries lack in the box, or none.
pub fn lowest_lacking(rules: &[u32], entries: &[u32], bounds: Bounds) -> Option<usize>
    ensures { result ≡ lacked rules.now entries.now bounds }
{
    let count = rules.len() / RULE_WORDS;
    for r in 0..count {
        if lacking(rules, entries, bounds, r) {
            return Some(r);
        }
    }
    None
}

// Whether the entries lack rule `r` in the box. They are looked through only where the rule's box meets it.
fn lacking(rules: &[u32], entries: &[u32], bounds: Bounds, r: usize) -> bool
    requires { r < rule_count rules.now }
    ensures { result ≡ lacking rules.now entries.now bounds r }
{
    box_meets(rules, bounds, r) && !stands_in(entries, r)
}

// Whether the box of rule `r` meets the box, field by field.
fn box_meets(rules: &[u32], bounds: Bounds, r: usize) -> bool
    requires { r < rule_count rules.now }
    ensures { result ≡ meets field_count (rule_box rules.now r) bounds }
{
    (0..FIELDS).all(|f| field_meets(field_of(rules, r, f), bounds[f]))
}

// Whether a number stands in the entries.
fn stands_in(entries: &[u32], number: usize) -> bool
    ensures { result ≡ has entries.now number }
{
    entries.iter().any(|entry| wide(*entry) == number)
}
