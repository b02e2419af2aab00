// The two ends of a field of a rule.
ghost use Rattle.std.specs.Prelude.{◌≡◌};
ghost use Rattle.rules.specs.Bounds.{ends_of};

use crate::words::{field_of, rule_there};
use fields::field::field_bounds;
use fields::header::FIELDS;

// The low and the high end of field `f` of rule `r`; 0 and 0 where the rule is not wholly lent or there is no such
// field.
pub fn ends_of(rules: &[u32], r: usize, f: usize) -> [u32; 2]
    ensures { result ≡ ends_of rules.now r f }
{
    if !rule_there(rules, r) || FIELDS <= f {
        return [0, 0];
    }
    field_bounds(field_of(rules, r, f))
}
