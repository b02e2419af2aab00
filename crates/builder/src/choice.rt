// What a node is: a leaf, or a cut. A node that does not stand yet is cut where the ends of the boxes that meet it fall
// most evenly: in the field with the most cut values, at the middle one.
ghost use Rattle.std.specs.Prelude.{◌+◌, ◌/◌, ◌^◌, ◌≤◌, ◌<◌, [], ◌∷◌, ◌≡◌, length};
ghost use Rattle.facts.specs.Lists.{keep};
ghost use Rattle.fields.specs.Words.{field_count};
ghost use Rattle.fields.specs.Cuts.{divides};
ghost use Rattle.built.specs.CutValues.{cut_values};
ghost use Rattle.builder.specs.BoxWords.{boxes_in};
ghost use Rattle.builder.specs.Choices.{choice_of, fresh_choice};
ghost use Rattle.builder.specs.ChoiceSteps.{ends_of, all_ends, most_values, Stored};
ghost use Rattle.builder.specs.ChoiceSteps.{Met, ValuesSeen, more_of, MostFound};

use crate::boxes::box_word;
use crate::sort::sort_once;
use fields::bounds::{Bounds, divides};
use fields::header::FIELDS;
use lent::{store, wide};
use rules::words::MOST_RULES;
use trees::words::{Node, node_at};

// The most rules that are not parted further.
const MOST_IN_LEAF: usize = 8;

// The most cut values of a field: two for each rule.
const MOST_VALUES: usize = 2 * MOST_RULES;

// What a node is: a leaf of the rules that meet its box; a leaf that stands already, with its entries; or a cut.
#[derive(Clone, Copy)]
pub enum Choice {
    Leaf,
    Stands { start: usize, count: usize },
    Cut { field: usize, value: u32 },
}

// The cut values of a field: how many there are, and the middle one.
#[derive(Clone, Copy)]
pub struct Values {
    pub field: usize,
    pub count: usize,
    pub middle: u32,
}

// What node `at` is, for a box that the rules `met` meet, with `cuts` more cuts allowed: as it stands, or else fresh.
pub(crate) fn choice_of(
    boxes: &[u32],
    met: &[u32],
    standing: &[u32],
    bounds: Bounds,
    at: usize,
    cuts: usize,
) -> Choice
    requires { Met boxes.now met.now bounds }
    ensures { result ≡ choice_of cuts field_count (boxes_in boxes.now) standing.now bounds at }
{
    match node_at(standing, at) {
        None => fresh_choice(boxes, met, bounds, cuts),
        Some(Node::Leaf { start, count }) => Choice::Stands { start, count },
        Some(
            Node::Cut {
                field,
                value,
                child: _,
            },
        ) => {
            if cuts == 0 {
                return Choice::Leaf;
            }
            Choice::Cut { field, value }
        }
    }
}

// A node that does not stand yet.
fn fresh_choice(boxes: &[u32], met: &[u32], bounds: Bounds, cuts: usize) -> Choice
    requires { Met boxes.now met.now bounds }
    ensures { result ≡ fresh_choice cuts field_count (boxes_in boxes.now) bounds }
{
    if cuts == 0 {
        return Choice::Leaf;
    }
    if met.len() <= MOST_IN_LEAF {
        return Choice::Leaf;
    }
    let most = most_values(boxes, met, bounds);
    if most.count == 0 {
        return Choice::Leaf;
    }
    Choice::Cut {
        field: most.field,
        value: most.middle,
    }
}

// The field with the most cut values, and the lowest of those that have as many.
fn most_values(boxes: &[u32], met: &[u32], bounds: Bounds) -> Values
    requires { Met boxes.now met.now bounds }
    ensures { MostFound (cut_values field_count (boxes_in boxes.now) bounds) field_count result }
{
    let mut values = [0u32; MOST_VALUES];
    let mut spare = [0u32; MOST_VALUES];
    most_in(boxes, met, bounds, &mut values, &mut spare)
}

// The same, in lent words with room for the values of a field.
fn most_in(
    boxes: &[u32],
    met: &[u32],
    bounds: Bounds,
    values: &mut [u32],
    spare: &mut [u32],
) -> Values
    requires { Met boxes.now met.now bounds × (most_values ≤ length values.old) ×
        (most_values ≤ length spare.old) }
    ensures { MostFound (cut_values field_count (boxes_in boxes.now) bounds) field_count result }
{
    let mut most = values_of(boxes, met, bounds, 0, 0, values, spare);
    for f in 1..FIELDS {
        let next = values_of(boxes, met, bounds, f, most.count, values, spare);
        most = more_of(most, next);
    }
    most
}

// The one with more values; the first where both have as many.
fn more_of(first: Values, next: Values) -> Values
    ensures { result ≡ more_of first next }
{
    if first.count < next.count {
        return next;
    }
    first
}

// The cut values of field `f` in a box, found in lent words. Where it cannot have more than `least` they are not
// sorted, and none are said.
fn values_of(
    boxes: &[u32],
    met: &[u32],
    bounds: Bounds,
    f: usize,
    least: usize,
    values: &mut [u32],
    spare: &mut [u32],
) -> Values
    requires { Met boxes.now met.now bounds × (f < field_count) × (most_values ≤ length values.old) ×
        (most_values ≤ length spare.old) }
    ensures { ValuesSeen (cut_values field_count (boxes_in boxes.now) bounds) f least result }
{
    let n = store_ends(boxes, met, bounds, f, values);
    if n <= least {
        return Values {
            field: f,
            count: 0,
            middle: 0,
        };
    }
    let count = sort_once(&mut values[..n], spare);
    let middle = values[middle_place(count)];
    Values {
        field: f,
        count,
        middle,
    }
}

// The place of the middle one of so many values: of two in the middle, that of the higher.
fn middle_place(count: usize) -> usize
    ensures { result ≡ count / 2 }
{
    count / 2
}

// Stores the ends of the boxes `met` in field `f` that divide a box, and says how many there are.
fn store_ends(boxes: &[u32], met: &[u32], bounds: Bounds, f: usize, values: &mut [u32]) -> usize
    requires { Met boxes.now met.now bounds × (f < field_count) }
    ensures { Stored values.old 0
        (keep (divides bounds f) (all_ends boxes.now f met.now)) result values.new }
{
    let mut n = 0;
    for &number in met {
        let r = wide(number);
        n = store_both(
            values,
            n,
            box_word(boxes, r, f, 0),
            box_word(boxes, r, f, 1),
            bounds,
            f,
        );
    }
    n
}

// Stores the high of a range, and its low less one where that is a number, if they divide a box in field `f`; and says
// which place is behind them.
fn store_both(values: &mut [u32], n: usize, low: u32, high: u32, bounds: Bounds, f: usize) -> usize
    requires { n + 2 < 2 ^ 64 }
    ensures { Stored values.old n (keep (divides bounds f) (ends_of low high)) result
        values.new }
{
    let m = store_inside(values, n, high, bounds, f);
    if low == 0 {
        return m;
    }
    store_inside(values, m, low - 1, bounds, f)
}

// Stores a value if it divides a box in field `f`.
fn store_inside(values: &mut [u32], n: usize, value: u32, bounds: Bounds, f: usize) -> usize
    requires { n + 1 < 2 ^ 64 }
    ensures { Stored values.old n (keep (divides bounds f) (value ∷ [])) result values.new }
{
    if !divides(bounds, f, value) {
        return n;
    }
    store(values, n, value);
    n + 1
}
