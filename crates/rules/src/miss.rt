// Why a rule missed: the call that says which field of a named rule is the first to disagree with a header.
ghost use Rattle.std.specs.Prelude.{◌≡◌, length};
ghost use Rattle.fields.specs.Words.{field_count};
ghost use Rattle.rules.specs.RuleMisses.{MissOf, RuleCompared};

use crate::check::list_verdict;
use crate::matching::first_miss;
use crate::words::rule_there;
use fields::header::header_verdict;
use refusals::Refusal;

// The lowest field of rule `number` that disagrees with the header, or the number of fields. Nothing is written.
pub fn rule_misses(rules: &[u32], header: &[u32], number: usize) -> Result<usize, Refusal>
    ensures { RuleCompared rules.now header.now number result }
{
    list_verdict(rules)?;
    header_verdict(header)?;
    miss_of(rules, header, number)
}

// The same once the list and the header are judged: whether there is such a rule is looked at last.
fn miss_of(rules: &[u32], header: &[u32], number: usize) -> Result<usize, Refusal>
    requires { length header.now ≡ field_count }
    ensures { MissOf rules.now header.now number result }
{
    if !rule_there(rules, number) {
        return Err(Refusal::RuleNotGood { rule: number });
    }
    Ok(first_miss(rules, header, number))
}
