// A piece of input, line by line: each newline is answered.
ghost use Rattle.std.specs.Prelude.{◌≤◌, ◌≡◌, length};
ghost use Rattle.text.specs.Said.{Said};
ghost use Rattle.console.specs.Lines.{most_refused};
ghost use Rattle.console.specs.Replies.{answer_to};
ghost use Rattle.console.specs.MissLines.{miss_answer};
ghost use Rattle.console.specs.Judged.{answer_asked};
ghost use Rattle.console.specs.Gathered.{gathering, reply_at, last_reply};
ghost use Rattle.console.specs.LineEnds.{line_end};
ghost use Rattle.console.specs.Feeding.{IsFed};

use crate::gather::Gathering;
use crate::head::MOST_BYTES;
use crate::judge::{Ask, by_of};
use crate::reply::reply_by;
use crate::say::refused_line;
use refusals::Refusal;
use text::cursor::{Cursor, wrong};

// How many bytes of a piece were taken, how many bytes their replies fill, and the line that is being gathered.
#[derive(Clone, Copy)]
pub struct Fed {
    pub taken: usize,
    pub filled: usize,
    pub gathering: Gathering,
}

// The replies to a piece of input, from the front of `out` on, until the piece ends or the next reply finds no room;
// the rest of `out` is as found.
pub fn feed(
    rules: &[u32],
    nodes: &[u32],
    pool: &[u32],
    accepted: bool,
    from: Gathering,
    piece: &[u8],
    out: &mut [u8],
) -> Fed
    ensures fed { IsFed (answer_to accepted rules.now nodes.now pool.now) from
        piece.now out.old result out.new }
    ensures bounded { (result.taken ≤ length piece.now) × (result.filled ≤ length out.new) }
{
    let ask = Ask::Matches(by_of(rules, accepted));
    feed_by(rules, nodes, pool, ask, from, piece, out)
}

// The same where the lines ask why rule `rule` misses their headers.
pub fn feed_why(rules: &[u32], rule: usize, from: Gathering, piece: &[u8], out: &mut [u8]) -> Fed
    ensures fed { IsFed (miss_answer rules.now rule) from piece.now out.old result
        out.new }
    ensures bounded { (result.taken ≤ length piece.now) × (result.filled ≤ length out.new) }
{
    let ask = Ask::Misses { rule };
    feed_by(rules, &rules[..0], &rules[..0], ask, from, piece, out)
}

// The same, once it is known what is asked, and what answers.
fn feed_by(
    rules: &[u32],
    nodes: &[u32],
    pool: &[u32],
    ask: Ask,
    from: Gathering,
    piece: &[u8],
    out: &mut [u8],
) -> Fed
    ensures fed { IsFed (answer_asked ask rules.now nodes.now pool.now) from
        piece.now out.old result out.new }
    ensures bounded { (result.taken ≤ length piece.now) × (result.filled ≤ length out.new) }
{
    let mut gathering = from;
    let mut filled = 0;
    let mut taken = 0;
    // A turn takes a whole line, so that no count of turns is known.
    while taken < piece.len() {
        let end = line_end(piece, taken);
        let line = gathering.with_bytes(&piece[taken..end]);
        if end == piece.len() {
            return Fed {
                taken: piece.len(),
                filled,
                gathering: line,
            };
        }
        match reply_at(rules, nodes, pool, ask, line, &mut out[filled..]) {
            Err(_) => {
                return Fed {
                    taken: end,
                    filled,
                    gathering: line,
                };
            }
            Ok(bytes) => {
                filled += bytes;
            }
        }
        gathering = line.next_line();
        taken = end + 1;
    }
    Fed {
        taken,
        filled,
        gathering,
    }
}

// The place of the next newline from `from` on, or the end of the piece where there is none.
fn line_end(piece: &[u8], from: usize) -> usize
    ensures { result ≡ line_end piece.now from }
{
    let start = Cursor { at: from, lines: 0 };
    start.line_end(piece).unwrap_or(piece.len())
}

// The reply to a line that is whole.
fn reply_at(
    rules: &[u32],
    nodes: &[u32],
    pool: &[u32],
    ask: Ask,
    line: Gathering,
    out: &mut [u8],
) -> Result<usize, Refusal>
    ensures { Said
        (reply_at (answer_asked ask rules.now nodes.now pool.now) line)
        out.old result out.new }
{
    let held = line.held;
    whole_line(rules, nodes, pool, ask, held, line.count, line.lines, out)
}

// The same, from the parts of the line: its bytes are the first `count` that are held, unless it was too long.
fn whole_line(
    rules: &[u32],
    nodes: &[u32],
    pool: &[u32],
    ask: Ask,
    held: [u8; MOST_BYTES],
    count: usize,
    lines: usize,
    out: &mut [u8],
) -> Result<usize, Refusal>
    ensures { Said
        (reply_at (answer_asked ask rules.now nodes.now pool.now)
        (gathering held count lines)) out.old result out.new }
{
    if MOST_BYTES < count {
        return refused_line(wrong(lines), out);
    }
    reply_by(rules, nodes, pool, ask, lines, &held[..count], out)
}

// The reply at the end of input: nothing, or 10 to a last part without newline, of any length.
pub fn last_reply(gathering: Gathering, out: &mut [u8]) -> Result<usize, Refusal>
    ensures said { Said (last_reply gathering) out.old result out.new }
    ensures short { length (last_reply gathering) ≤ most_refused }
{
    let lines = gathering.lines;
    if gathering.count == 0 {
        return Ok(0);
    }
    refused_line(Refusal::TextStops { lines }, out)
}
