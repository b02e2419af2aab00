// The reader of the rule file: the first line, the rules in order, the end line and nothing after it.
ghost use Rattle.std.specs.Prelude.{◌≤◌, ◌<◌, ◌≡◌};
ghost use Rattle.rules.specs.Words.{most_rules};
ghost use Rattle.text.specs.Words.{rule_word, one_tab};
ghost use Rattle.text.specs.Cursors.{cursor_at, line_at};
ghost use Rattle.text.specs.Onward.{Stands};
ghost use Rattle.rule_file.specs.Kinds.{list_word_of, marks_of, kind_of};
ghost use Rattle.rule_file.specs.RuleText.{lines_in};
ghost use Rattle.rule_file.specs.Reading.{RulesRead};
ghost use Rattle.rule_file.specs.ReadSteps.{rest_from, FirstLineRead, RuleLineRead};
ghost use Rattle.rule_file.specs.ReadSteps.{PassRead, WordsTaken};

use crate::kind::{Kind, kind_of};
use crate::record::{rule_fits, rule_of};
use lent::store_all;
use refusals::Refusal;
use rules::check::list_verdict;
use rules::words::{MOST_RULES, RULE_WORDS};
use text::cursor::{Cursor, Fields, wrong};
use text::end::end_line;
use text::words::{ONE_TAB, RULE};

// What a text holds: how many rules, and its kind.
#[derive(Clone, Copy)]
pub struct Rules {
    pub rules: usize,
    pub kind: Kind,
}

// The words of the rules that a text holds, from the front of `rules` on; the rest of `rules` is as found. The text is
// judged whole before twins are looked for and the room is judged, so its words are read into words of their own. A
// refusal writes nothing.
pub fn rules_read(text: &[u8], rules: &mut [u32]) -> Result<Rules, Refusal>
    ensures { RulesRead text.now rules.old result rules.new }
{
    let mut words = [0u32; MOST_RULES * RULE_WORDS];
    let read = read_lines(text, &mut words)?;
    let end = read.rules * RULE_WORDS;
    take_words(&words[..end], read.kind, rules)
}

// Stores the words of the rules of a text, where no two are twins and there is room for all. Each rule is good, so the
// list is refused for twins alone.
fn take_words(words: &[u32], kind: Kind, rules: &mut [u32]) -> Result<Rules, Refusal>
    ensures { WordsTaken kind words.now rules.old result rules.new }
{
    list_verdict(words)?;
    if rules.len() < words.len() {
        return Err(Refusal::OutputShort {
            needed: words.len(),
            output: 0,
        });
    }
    store_all(rules, 0, words);
    Ok(Rules {
        rules: words.len() / RULE_WORDS,
        kind,
    })
}

// Judges the lines of a text, counts its rules, and stores their words as far as there is room.
fn read_lines(text: &[u8], rules: &mut [u32]) -> Result<Rules, Refusal>
    ensures { PassRead (kind_of text.now) (lines_in text.now) rules.old
        rules.new result }
{
    let kind = kind_of(text);
    let (n, c) = first_line(text, kind)?;
    rule_lines(text, kind, c, n, rules)
}

// What the first line says: how many rules follow, and where they begin.
fn first_line(text: &[u8], kind: Kind) -> Result<(usize, Cursor), Refusal>
    ensures { FirstLineRead kind text.now result }
{
    let read = first_fields(text, kind)?;
    let n = read.values[0] as usize;
    if MOST_RULES < n {
        return Err(wrong(0));
    }
    Ok((n, read.next))
}

// The first line as it stands: the word of its kind, and a number.
fn first_fields(text: &[u8], kind: Kind) -> Result<Fields, Refusal>
    ensures { result ≡ line_at text.now (cursor_at 0 0) (list_word_of kind) one_tab }
{
    let c = Cursor { at: 0, lines: 0 };
    c.line(text, kind.word(), &ONE_TAB)
}

// The lines of `n` rules, and the end line.
fn rule_lines(
    text: &[u8],
    kind: Kind,
    c: Cursor,
    n: usize,
    rules: &mut [u32],
) -> Result<Rules, Refusal>
    requires { Stands text.now c × (n ≤ most_rules) }
    ensures { PassRead kind (rest_from kind n text.now c) rules.old
        rules.new result }
{
    let mut at = c.at;
    let mut lines = c.lines;
    for i in 0..n {
        let here = Cursor { at, lines };
        let next = rule_line(text, kind, here, i, rules)?;
        at = next.at;
        lines = next.lines;
    }
    end_line(text, Cursor { at, lines }, true, n + 1)?;
    Ok(Rules { rules: n, kind })
}

// The line of rule `i`, whose words are stored.
fn rule_line(
    text: &[u8],
    kind: Kind,
    c: Cursor,
    i: usize,
    rules: &mut [u32],
) -> Result<Cursor, Refusal>
    requires { Stands text.now c × (i < most_rules) }
    ensures { RuleLineRead kind text.now c i rules.old rules.new result }
{
    let read = rule_fields(text, kind, c)?;
    let values = read.values;
    if !rule_fits(i, values) {
        return Err(wrong(c.lines));
    }
    store_all(rules, i * RULE_WORDS, &rule_of(values));
    Ok(read.next)
}

// The line of a rule as it stands: a number behind each separator of its kind, so 0 for an action that it does not
// have.
fn rule_fields(text: &[u8], kind: Kind, c: Cursor) -> Result<Fields, Refusal>
    ensures { result ≡ line_at text.now c rule_word (marks_of kind) }
{
    c.line(text, &RULE, kind.marks())
}
