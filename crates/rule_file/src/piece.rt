// The piece of a rule's line that says one field: the rule's own words for it.
ghost use Rattle.std.specs.Prelude.{◌≤◌, length};
ghost use Rattle.text.specs.Words.{rule_marks};
ghost use Rattle.text.specs.Line.{print_fields};
ghost use Rattle.text.specs.Puts.{Put};
ghost use Rattle.rule_file.specs.Pieces.{between, words_for};

use crate::record::{rule_at, values_of};
use fields::header::FIELDS;
use rules::words::rule_there;
use text::put::put_fields;
use text::words::{MOST_FIELDS, RULE_MARKS};

// Where each field begins among the numbers of a rule's line, and where the last one ends.
const PLACES: [usize; FIELDS + 1] = [1, 6, 11, 13, 15, 17];

// The words of rule `r` for field `f`, each behind its separator, as the rule's line has them; nothing where the rule
// is not wholly lent, or there is no such field.
pub fn put_words(text: &mut [u8], at: usize, rules: &[u32], r: usize, f: usize) -> usize
    ensures { Put text.old at (words_for rules.now r f) text.new result }
{
    if !rule_there(rules, r) {
        return at;
    }
    if FIELDS <= f {
        return at;
    }
    let values = values_of(0, rule_at(rules, r));
    put_between(text, at, values, PLACES[f], PLACES[f + 1])
}

// The numbers of a rule's line from one place to another. The rule's own number stands before them all.
fn put_between(
    text: &mut [u8],
    at: usize,
    values: [u32; MOST_FIELDS],
    from: usize,
    to: usize,
) -> usize
    requires { (from ≤ to) × (to ≤ length rule_marks) }
    ensures { Put text.old at (print_fields (between from to rule_marks) (between from to values))
        text.new result }
{
    put_fields(text, at, &RULE_MARKS[from..to], &values[from..to])
}
