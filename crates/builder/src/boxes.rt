// Boxes as words: for each field of each box its low and its high. A box has the number at which it stands.
ghost use Rattle.std.specs.Prelude.{◌*◌, ◌<◌, ◌≤◌, true, ◌≡◌, length, get_or};
ghost use Rattle.facts.specs.Lists.{all_under, Kept};
ghost use Rattle.refusals.specs.Verdict.{Fine};
ghost use Rattle.fields.specs.Words.{field_count};
ghost use Rattle.fields.specs.Ranges.{ranges_meet};
ghost use Rattle.rules.specs.Words.{rule_count};
ghost use Rattle.rules.specs.Good.{list_verdict};
ghost use Rattle.builder.specs.BoxWords.{box_words, box_count, box_word, met_by, BoxesFilled};

use fields::bounds::Bounds;
use fields::header::FIELDS;
use fields::range::ranges_meet;
use lent::{store, store_all, wide};
use rules::bounds::ends_of;
use rules::words::RULE_WORDS;

// The ends of a field, and the words of a box.
pub(crate) const ENDS: usize = 2;

pub(crate) const BOX_WORDS: usize = FIELDS * ENDS;

// Stores the boxes of a good list's rules from the front of `out` on, one field of a rule after another.
pub(crate) fn fill_boxes(rules: &[u32], out: &mut [u32])
    requires { (list_verdict rules.now ≡ Fine) × (rule_count rules.now * box_words ≤ length out.old) }
    ensures { BoxesFilled rules.now out.new }
{
    let sides = rules.len() / RULE_WORDS * FIELDS;
    for i in 0..sides {
        let ends = ends_of(rules, i / FIELDS, i % FIELDS);
        store_all(out, i * ENDS, &ends);
    }
}

// The numbers among `above` whose boxes meet the bounds, stored from the front of `out` on as far as there is room; and
// how many there are.
pub(crate) fn keep_meeting(boxes: &[u32], above: &[u32], bounds: Bounds, out: &mut [u32]) -> usize
    requires { all_under (box_count boxes.now) above.now ≡ true }
    ensures { Kept (met_by boxes.now bounds) above.now out.old result
        out.new }
{
    let mut n = 0;
    for &number in above {
        if box_meets(boxes, wide(number), bounds) {
            store(out, n, number);
            n += 1;
        }
    }
    n
}

// Whether box `r` meets the bounds, field by field.
fn box_meets(boxes: &[u32], r: usize, bounds: Bounds) -> bool
    requires { r < box_count boxes.now }
    ensures { result ≡ met_by boxes.now bounds r }
{
    (0..FIELDS).all(|f| side_meets(boxes, r, f, bounds[f]))
}

// Whether box `r` meets the range between the two ends in field `f`.
fn side_meets(boxes: &[u32], r: usize, f: usize, ends: [u32; 2]) -> bool
    requires { (r < box_count boxes.now) × (f < field_count) }
    ensures { result ≡ ranges_meet (box_word boxes.now r f 0) (box_word boxes.now r f 1)
        (get_or ends 0 0) (get_or ends 1 0) }
{
    ranges_meet(
        box_word(boxes, r, f, 0),
        box_word(boxes, r, f, 1),
        ends[0],
        ends[1],
    )
}

// An end of box `r` in field `f`: 0 is the low, 1 the high.
pub(crate) fn box_word(boxes: &[u32], r: usize, f: usize, end: usize) -> u32
    requires { (r < box_count boxes.now) × (f < field_count) × (end < 2) }
    ensures { result ≡ box_word boxes.now r f end }
{
    boxes[r * BOX_WORDS + f * ENDS + end]
}
