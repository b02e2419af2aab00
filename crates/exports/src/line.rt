// The rule check, the line search, the scan and the call that says why a rule missed, for C.
ghost use Rattle.std.specs.Prelude.{◌≡◌};
ghost use Rattle.rules.specs.LineFirst as first;
ghost use Rattle.exports.specs.Answers.{in_two_words, as_eight};
ghost use Rattle.exports.specs.Calls.{RuleCheckAnswered, LineAllAnswered, LineFirstAnswered};
ghost use Rattle.exports.specs.Calls.{ScanAllAnswered, ScanFirstAnswered, RuleMissesAnswered};

use crate::answer::{in_two, of_number, of_refusal};
use refusals::Refusal;
use rules::line::Hit;

// The value: the number of rules.
pub fn wick_rule_check(rules: &[u32], answer: &mut [u64; 8])
    ensures { RuleCheckAnswered rules.now answer.new }
{
    *answer = of_number(rules::check::rule_check(rules));
}

// The value: how many numbers were written to `out`.
pub fn wick_line_all(rules: &[u32], header: &[u32], out: &mut [u32], answer: &mut [u64; 8])
    ensures { LineAllAnswered rules.now header.now out.old out.new
        answer.new }
{
    *answer = of_number(rules::line::line_all(rules, header, out));
}

// The values: the lowest number that matches and one more, or 0; and fourth the action of its rule, or 0.
pub fn wick_line_first(rules: &[u32], header: &[u32], answer: &mut [u64; 8])
    ensures { LineFirstAnswered rules.now header.now answer.new }
{
    *answer = of_first(rules::line::line_first(rules, header));
}

// The value: how many numbers were written to `out`.
pub fn wick_scan_all(rules: &[u32], header: &[u32], out: &mut [u32], answer: &mut [u64; 8])
    ensures { ScanAllAnswered rules.now header.now out.old out.new
        answer.new }
{
    *answer = of_number(rules::line::scan_all(rules, header, out));
}

// The values: the lowest number that matches and one more, or 0; and fourth the action of its rule, or 0.
pub fn wick_scan_first(rules: &[u32], header: &[u32], answer: &mut [u64; 8])
    ensures { ScanFirstAnswered rules.now header.now answer.new }
{
    *answer = of_first(rules::line::scan_first(rules, header));
}

// The value: the lowest field of rule `number` that disagrees with the header, or 5 where the rule matches.
pub fn wick_rule_misses(rules: &[u32], header: &[u32], number: u64, answer: &mut [u64; 8])
    ensures { RuleMissesAnswered rules.now header.now number answer.new }
{
    *answer = of_number(rules::miss::rule_misses(rules, header, number as usize));
}

fn of_first(said: Result<Option<Hit>, Refusal>) -> [u64; 8]
    ensures { result ≡ as_eight in_two_words (first.paper said) }
{
    match said {
        Err(why) => of_refusal(why),
        Ok(hit) => {
            let (rule, action) = in_two(hit);
            [0, 0, 0, rule, 0, 0, action, 0]
        }
    }
}
