// The writers of the rule file, one for each kind: the first line, a line for each rule, and the end line.
ghost use Rattle.std.specs.Prelude.{◌+◌, ◌*◌, ◌≤◌, ◌<◌, ◌≡◌, length};
ghost use Rattle.refusals.specs.Verdict.{Fine};
ghost use Rattle.rules.specs.Words.{rule_words, most_rules};
ghost use Rattle.rules.specs.Good.{list_verdict_to};
ghost use Rattle.text.specs.Line.{ended};
ghost use Rattle.text.specs.Puts.{Put};
ghost use Rattle.text.specs.Said.{Said};
ghost use Rattle.rule_file.specs.Records.{rule_at};
ghost use Rattle.rule_file.specs.ListText.{first_line, rule_line};
ghost use Rattle.rule_file.specs.Kinds.{most_action};
ghost use Rattle.rule_file.specs.RuleText.{format_of, text_of};
ghost use Rattle.rule_file.specs.Writing.{ListWritten, RulesWritten, AclWritten};

use crate::kind::Kind;
use crate::record::{rule_at, values_of};
use refusals::Refusal;
use rules::check::verdict_to;
use rules::words::RULE_WORDS;
use text::end::put_end;
use text::put::put_line;
use text::words::{ONE_TAB, RULE};

// A list whose actions are 0 as text, from the front of `text` on; the rest of `text` is as found. A refusal writes
// nothing.
pub fn rules_write(rules: &[u32], text: &mut [u8]) -> Result<usize, Refusal>
    ensures { RulesWritten rules.now text.old result text.new }
{
    list_write(Kind::Rules, rules, text)
}

// The same of a list with any actions.
pub fn acl_write(rules: &[u32], text: &mut [u8]) -> Result<usize, Refusal>
    ensures { AclWritten rules.now text.old result text.new }
{
    list_write(Kind::Acl, rules, text)
}

// A list as text of a kind, if its lines can say the actions.
fn list_write(kind: Kind, rules: &[u32], text: &mut [u8]) -> Result<usize, Refusal>
    ensures { ListWritten kind rules.now text.old result text.new }
{
    verdict_to(rules, kind.most_action())?;
    write_whole(kind, rules, text)
}

// A good list as text, where there is room for all of it.
fn write_whole(kind: Kind, rules: &[u32], text: &mut [u8]) -> Result<usize, Refusal>
    requires { list_verdict_to (most_action kind) rules.now ≡ Fine }
    ensures { Said (text_of kind rules.now) text.old result text.new }
{
    let needed = write_pass(kind, rules, &mut text[..0]);
    if text.len() < needed {
        return Err(Refusal::OutputShort { needed, output: 0 });
    }
    Ok(write_pass(kind, rules, text))
}

// One pass: puts the whole text as far as there is room, and answers its length.
fn write_pass(kind: Kind, rules: &[u32], text: &mut [u8]) -> usize
    requires { list_verdict_to (most_action kind) rules.now ≡ Fine }
    ensures { Put text.old 0 (text_of kind rules.now) text.new result }
{
    let count = rules.len() / RULE_WORDS;
    let mut at = put_first(kind, text, count);
    for i in 0..count {
        at = put_rule(kind, text, at, rules, i);
    }
    put_end(text, at, count as u32 + 1)
}

// The first line of a text of `n` rules.
fn put_first(kind: Kind, text: &mut [u8], n: usize) -> usize
    requires { n ≤ most_rules }
    ensures { Put text.old 0 (ended (first_line (format_of kind) n)) text.new result }
{
    let values = [n as u32];
    put_line(text, 0, kind.word(), &ONE_TAB, &values)
}

// The line of rule `i`: as many of its numbers as the line has separators.
fn put_rule(kind: Kind, text: &mut [u8], at: usize, rules: &[u32], i: usize) -> usize
    requires { (i < most_rules) × (i * rule_words + rule_words ≤ length rules.now) }
    ensures { Put text.old at
        (ended (rule_line (format_of kind) i (rule_at rules.now i))) text.new result }
{
    let values = values_of(i, rule_at(rules, i));
    put_line(text, at, &RULE, kind.marks(), &values)
}
