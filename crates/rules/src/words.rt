// The words of a list of rules.
ghost use Rattle.std.specs.Prelude.{◌<◌, ◌≡◌};
ghost use Rattle.fields.specs.Words.{field_count};
ghost use Rattle.rules.specs.Words.{rule_words, rule_count, rule_there, word_of, action_of, form_of, field_of};

use fields::field::Field;
use fields::header::FIELDS;

// The words of a rule: those that say what it matches, and then its action.
pub const RULE_WORDS: usize = 11;

// The words of a rule that say what it matches.
pub(crate) const MATCH_WORDS: usize = 10;

// The most rules that a list holds.
pub const MOST_RULES: usize = 512;

// The largest end of a rule's range of protocols.
const LARGEST_PROTOCOL: u32 = 255;

// The largest action of a good rule.
pub const LARGEST_ACTION: u32 = 255;

// How a rule gives a field: by a prefix, the words of its address and of its length; by a range, the words of its two
// ends, and the largest end that it may have; or by a range of ports, the words of its two ends.
#[derive(Clone, Copy)]
enum Form {
    Prefix {
        address: usize,
        len: usize,
    },
    Range {
        low: usize,
        high: usize,
        largest: u32,
    },
    Ports {
        low: usize,
        high: usize,
    },
}

// The form of each field: source, destination, source port, destination port, protocol.
const FORMS: [Form; FIELDS] = [
    Form::Prefix { address: 0, len: 1 },
    Form::Prefix { address: 2, len: 3 },
    Form::Ports { low: 4, high: 5 },
    Form::Ports { low: 6, high: 7 },
    Form::Range {
        low: 8,
        high: 9,
        largest: LARGEST_PROTOCOL,
    },
];

// Whether rule `r` is wholly lent.
pub fn rule_there(rules: &[u32], r: usize) -> bool
    ensures { result ≡ rule_there rules.now r }
{
    r < rules.len() / RULE_WORDS
}

// Field `f` of rule `r`, read in the form of that field.
pub(crate) fn field_of(rules: &[u32], r: usize, f: usize) -> Field
    requires { (r < rule_count rules.now) × (f < field_count) }
    ensures { result ≡ field_of (form_of f) rules.now r }
{
    let form = FORMS[f];
    match form {
        Form::Prefix { address, len } => Field::Prefix {
            address: word_of(rules, r, address),
            len: word_of(rules, r, len),
        },
        Form::Range { low, high, largest } => Field::Range {
            low: word_of(rules, r, low),
            high: word_of(rules, r, high),
            largest,
        },
        Form::Ports { low, high } => Field::Ports {
            low: word_of(rules, r, low),
            high: word_of(rules, r, high),
        },
    }
}

// The action of rule `r`, as it stands; 0 where the rule is not wholly lent.
pub fn action_of(rules: &[u32], r: usize) -> u32
    ensures { result ≡ action_of rules.now r }
{
    if !rule_there(rules, r) {
        return 0;
    }
    word_of(rules, r, MATCH_WORDS)
}

// Word `j` of rule `r`.
pub(crate) fn word_of(rules: &[u32], r: usize, j: usize) -> u32
    requires { (r < rule_count rules.now) × (j < rule_words) }
    ensures { result ≡ word_of rules.now r j }
{
    rules[r * RULE_WORDS + j]
}
