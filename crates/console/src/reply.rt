// The reply to one input line: the header is searched for in the list line by line, or by a tree; or it is said why one
// rule misses it.
ghost use Rattle.std.specs.Prelude.{length};
ghost use Rattle.rules.specs.LineAll.{Lists};
ghost use Rattle.text.specs.Said.{Said};
ghost use Rattle.console.specs.Replies.{answer_to, line_reply};
ghost use Rattle.console.specs.MissLines.{miss_answer};
ghost use Rattle.console.specs.Judged.{verdict_by, list_by, answer_by, answer_asked};

use crate::head::head_in;
use crate::judge::{Ask, By, by_of};
use crate::say::{hit_line, miss_line, refused_line};
use refusals::Refusal;
use rules::line::scan_all;
use rules::miss::rule_misses;
use rules::words::MOST_RULES;
use text::cursor::wrong;
use trees::search::tree_all;

// The reply to a line without its newline, which has `lines` lines before it: by the tree if the tree check accepted
// it, else by the list. A refusal writes nothing.
pub fn reply(
    rules: &[u32],
    nodes: &[u32],
    pool: &[u32],
    accepted: bool,
    lines: usize,
    line: &[u8],
    out: &mut [u8],
) -> Result<usize, Refusal>
    ensures { Said (line_reply (answer_to accepted rules.now nodes.now pool.now)
        lines line.now) out.old result out.new }
{
    let ask = Ask::Matches(by_of(rules, accepted));
    reply_by(rules, nodes, pool, ask, lines, line, out)
}

// The same, once it is known what is asked, and what answers.
pub(crate) fn reply_by(
    rules: &[u32],
    nodes: &[u32],
    pool: &[u32],
    ask: Ask,
    lines: usize,
    line: &[u8],
    out: &mut [u8],
) -> Result<usize, Refusal>
    ensures { Said (line_reply (answer_asked ask rules.now nodes.now pool.now)
        lines line.now) out.old result out.new }
{
    match head_in(line) {
        None => refused_line(wrong(lines), out),
        Some(header) => answer_asked(rules, nodes, pool, ask, &header, out),
    }
}

// The answer to what is asked of a header.
fn answer_asked(
    rules: &[u32],
    nodes: &[u32],
    pool: &[u32],
    ask: Ask,
    header: &[u32],
    out: &mut [u8],
) -> Result<usize, Refusal>
    ensures { Said (answer_asked ask rules.now nodes.now pool.now
        header.now) out.old result out.new }
{
    match ask {
        Ask::Matches(by) => answer(rules, nodes, pool, by, header, out),
        Ask::Misses { rule } => answer_miss(rules, rule, header, out),
    }
}

// Why a rule misses a header.
fn answer_miss(rules: &[u32], rule: usize, header: &[u32], out: &mut [u8]) -> Result<usize, Refusal>
    ensures { Said (miss_answer rules.now rule header.now) out.old result
        out.new }
{
    match rule_misses(rules, header, rule) {
        Err(why) => refused_line(why, out),
        Ok(field) => miss_line(rules, rule, field, out),
    }
}

// Which rules match a header.
fn answer(
    rules: &[u32],
    nodes: &[u32],
    pool: &[u32],
    by: Result<By, Refusal>,
    header: &[u32],
    out: &mut [u8],
) -> Result<usize, Refusal>
    ensures { Said (answer_by by rules.now nodes.now pool.now
        header.now) out.old result out.new }
{
    let mut found = [0u32; MOST_RULES];
    match search(rules, nodes, pool, by, header, &mut found) {
        Err(why) => refused_line(why, out),
        Ok(count) => hit_line(&found[..count], out),
    }
}

// Every number that matches, by the tree or by the list; or the refusal of the list.
fn search(
    rules: &[u32],
    nodes: &[u32],
    pool: &[u32],
    by: Result<By, Refusal>,
    header: &[u32],
    out: &mut [u32],
) -> Result<usize, Refusal>
    ensures { Lists
        (verdict_by by rules.now nodes.now pool.now header.now
        (length out.old))
        (list_by by rules.now nodes.now pool.now header.now)
        out.old result out.new }
{
    match by? {
        By::List => scan_all(rules, header, out),
        By::Tree => {
            let found = tree_all(rules, nodes, pool, header, out)?;
            Ok(found.count)
        }
    }
}
