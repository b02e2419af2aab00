// One node's line: a cut's or a leaf's.
ghost use Rattle.std.specs.Prelude.{◌+◌, ◌<◌, ◌≤◌, ◌≡◌, length, drop};
ghost use Rattle.std.proofs.Math.Option.{none};
ghost use Rattle.text.specs.Words.{cut_word, four_tabs};
ghost use Rattle.text.specs.Line.{read_line};
ghost use Rattle.text.specs.Onward.{Stands};
ghost use Rattle.trees.specs.Words.{most_pool};
ghost use Rattle.tree_file.specs.TreeText.{cut_fits, leaf_fits};
ghost use Rattle.tree_file.specs.NodeSteps.{Turn, EntriesRead, LineRead, NodeLineRead};

use crate::read::Counts;
use crate::words::store_node;
use lent::{store, wide};
use refusals::Refusal;
use text::cursor::{Cursor, wrong};
use text::words::{CUT, FOUR_TABS, LEAF, TAB, TWO_TABS};
use trees::words::LEAF_MARK;

// The line of node `i`, the leaves below it having `filled` entries. Its words and entries are stored as far as there
// is room. The answer is the number of entries up to here, and the cursor behind the line.
pub(crate) fn node_line(
    text: &[u8],
    here: Cursor,
    counts: Counts,
    i: usize,
    filled: usize,
    nodes: &mut [u32],
    pool: &mut [u32],
) -> Result<(usize, Cursor), Refusal>
    requires { Stands text.now here × Turn counts i filled }
    ensures { NodeLineRead text.now here counts i filled nodes.old pool.old
        nodes.new pool.new result }
{
    let end = here.line_end(text)?;
    node_in(&text[..end], here, counts, i, filled, nodes, pool)
}

// The line without its newline: a cut's, or else a leaf's.
fn node_in(
    line: &[u8],
    here: Cursor,
    counts: Counts,
    i: usize,
    filled: usize,
    nodes: &mut [u32],
    pool: &mut [u32],
) -> Result<(usize, Cursor), Refusal>
    requires { (here.at ≤ length line.now) × Turn counts i filled }
    ensures { LineRead line.now here counts i filled nodes.old pool.old
        nodes.new pool.new result }
{
    match here.whole(line, &CUT, &FOUR_TABS) {
        Err(_) => leaf_in(line, here, counts, i, filled, nodes, pool),
        Ok(read) => {
            let values = read.values;
            if !cut_fits(counts.nodes, i, values[0], values[1], values[3]) {
                return Err(wrong(here.lines));
            }
            store_node(nodes, i, [values[1], values[2], values[3]]);
            Ok((filled, read.next))
        }
    }
}

// Whether these are the numbers of cut `i`: its field is one, and its right child a node.
#[tactic(auto, unfolding(crate::specs::TreeText::cut_fits))]
fn cut_fits(nodes: usize, i: usize, number: u32, field: u32, child: u32) -> bool
    ensures { result ≡ cut_fits nodes i number field child }
{
    wide(number) == i && wide(field) < LEAF_MARK && wide(child) < nodes
}

// A leaf's line: its number and count, then its entries.
fn leaf_in(
    line: &[u8],
    here: Cursor,
    counts: Counts,
    i: usize,
    filled: usize,
    nodes: &mut [u32],
    pool: &mut [u32],
) -> Result<(usize, Cursor), Refusal>
    requires at_in_bounds { (here.at ≤ length line.now) × Turn counts i filled }
    requires line_value { read_line cut_word four_tabs (drop here.at line.now) ≡ none }
    ensures { LineRead line.now here counts i filled nodes.old pool.old
        nodes.new pool.new result }
{
    let read = here.fields(line, &LEAF, &TWO_TABS)?;
    let count = read.values[1];
    if !leaf_fits(counts, i, filled, read.values[0], count) {
        return Err(wrong(here.lines));
    }
    store_node(nodes, i, [LEAF_MARK as u32, filled as u32, count]);
    entries_in(line, read.next, counts.rules, filled, wide(count), pool)
}

// Whether these are the numbers of leaf `i`: its count is at most the number of rules, and does not take the pool past
// its total.
#[tactic(auto, unfolding(crate::specs::TreeText::leaf_fits))]
fn leaf_fits(counts: Counts, i: usize, filled: usize, number: u32, count: u32) -> bool
    requires { filled ≤ most_pool }
    ensures { result ≡ leaf_fits counts.rules counts.pool i filled number count }
{
    wide(number) == i && wide(count) <= counts.rules && filled + wide(count) <= counts.pool
}

// The entries of a leaf, each below the number of rules, and nothing behind them.
fn entries_in(
    line: &[u8],
    here: Cursor,
    rules: usize,
    filled: usize,
    count: usize,
    pool: &mut [u32],
) -> Result<(usize, Cursor), Refusal>
    requires { (here.at ≤ length line.now) × (filled + count ≤ most_pool) }
    ensures { EntriesRead line.now here rules count filled pool.old
        pool.new result }
{
    let lines = here.lines;
    let mut at = here.at;
    for j in 0..count {
        let c = Cursor { at, lines };
        let (entry, d) = c.number_behind(line, TAB)?;
        if rules <= wide(entry) {
            return Err(wrong(lines));
        }
        store(pool, filled + j, entry);
        at = d.at;
    }
    let c = Cursor { at, lines };
    let next = c.end(line)?;
    Ok((filled + count, next))
}
