// The two writers and the reader of the rule file for C.
ghost use Rattle.std.specs.Prelude.{◌≡◌};
ghost use Rattle.rule_file.specs.Kinds.{kind_number};
ghost use Rattle.rule_file.specs.Reading as read;
ghost use Rattle.exports.specs.Answers.{plainly, as_eight};
ghost use Rattle.exports.specs.Calls.{RulesWriteAnswered, AclWriteAnswered, RulesReadAnswered};

use crate::answer::{of_number, of_refusal};
use refusals::Refusal;
use rule_file::kind::Kind;
use rule_file::read::Rules;

// The value: the bytes that were written to `text`.
pub fn wick_rules_write(rules: &[u32], text: &mut [u8], answer: &mut [u64; 8])
    ensures { RulesWriteAnswered rules.now text.old text.new
        answer.new }
{
    *answer = of_number(rule_file::write::rules_write(rules, text));
}

// The value: the bytes that were written to `text`.
pub fn wick_acl_write(rules: &[u32], text: &mut [u8], answer: &mut [u64; 8])
    ensures { AclWriteAnswered rules.now text.old text.new
        answer.new }
{
    *answer = of_number(rule_file::write::acl_write(rules, text));
}

// The values: the number of rules, whose words were written to `rules`; and 1 for an `acl` file, or 0 for a `rules`
// file.
pub fn wick_rules_read(text: &[u8], rules: &mut [u32], answer: &mut [u64; 8])
    ensures { RulesReadAnswered text.now rules.old rules.new
        answer.new }
{
    *answer = of_read(rule_file::read::rules_read(text, rules));
}

fn of_read(said: Result<Rules, Refusal>) -> [u64; 8]
    ensures { result ≡ as_eight plainly (read.paper said) }
{
    match said {
        Err(why) => of_refusal(why),
        Ok(Rules { rules, kind }) => [0, 0, 0, rules as u64, of_kind(kind), 0, 0, 0],
    }
}

fn of_kind(kind: Kind) -> u64
    ensures { result ≡ kind_number kind }
{
    match kind {
        Kind::Rules => 0,
        Kind::Acl => 1,
    }
}
