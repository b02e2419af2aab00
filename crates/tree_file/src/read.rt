// Reading a tree's file or a part's, line by line: they differ in the first word alone.
ghost use Rattle.std.specs.Prelude.{◌≡◌};
ghost use Rattle.text.specs.Onward.{Stands};
ghost use Rattle.tree_file.specs.TreeText.{counts_fit, file_in};
ghost use Rattle.tree_file.specs.Reading.{FileRead, TreeRead, PartRead};
ghost use Rattle.tree_file.specs.ReadSteps.{Limits, FirstLineRead, PassRead, tree_from, begun};

use crate::node::node_line;
use lent::wide;
use refusals::Refusal;
use rules::words::MOST_RULES;
use text::cursor::{Cursor, wrong};
use text::end::end_line;
use text::words::{PART, THREE_TABS, TREE};
use trees::words::{MOST_NODES, MOST_POOL, NODE_WORDS};

// The numbers of rules, nodes and pool words: those that the first line announces, and the file then has.
#[derive(Clone, Copy)]
pub struct Counts {
    pub rules: usize,
    pub nodes: usize,
    pub pool: usize,
}

// The tree of a text: its nodes from the front of `nodes` on, its entries from the front of `pool` on; what is behind
// them is as found. A refusal leaves both as found.
pub fn tree_read(text: &[u8], nodes: &mut [u32], pool: &mut [u32]) -> Result<Counts, Refusal>
    ensures { TreeRead text.now nodes.old pool.old result nodes.new
        pool.new }
{
    file_read(&TREE, text, nodes, pool)
}

// The same of a part: a tree whose compile was stopped.
pub fn part_read(text: &[u8], nodes: &mut [u32], pool: &mut [u32]) -> Result<Counts, Refusal>
    ensures { PartRead text.now nodes.old pool.old result nodes.new
        pool.new }
{
    file_read(&PART, text, nodes, pool)
}

// The tree of a text that is to begin with the word. The text is read once without storing, then with.
fn file_read(
    word: &[u8],
    text: &[u8],
    nodes: &mut [u32],
    pool: &mut [u32],
) -> Result<Counts, Refusal>
    ensures { FileRead word.now text.now nodes.old pool.old result
        nodes.new pool.new }
{
    let counts = read_pass(word, text, &mut nodes[..0], &mut pool[..0])?;
    let words = counts.nodes * NODE_WORDS;
    if nodes.len() < words {
        return Err(Refusal::OutputShort {
            needed: words,
            output: 0,
        });
    }
    if pool.len() < counts.pool {
        return Err(Refusal::OutputShort {
            needed: counts.pool,
            output: 1,
        });
    }
    read_pass(word, text, nodes, pool)
}

// One pass over a text: judges it, and stores the words of its nodes and its entries as far as there is room.
fn read_pass(
    word: &[u8],
    text: &[u8],
    nodes: &mut [u32],
    pool: &mut [u32],
) -> Result<Counts, Refusal>
    ensures { PassRead (file_in word.now text.now) nodes.old
        pool.old nodes.new pool.new result }
{
    let (counts, next) = first_line(word, text)?;
    node_lines(text, next, counts, nodes, pool)
}

// The first line, which begins with the word: the counts that it announces, and where the nodes begin.
fn first_line(word: &[u8], text: &[u8]) -> Result<(Counts, Cursor), Refusal>
    ensures { FirstLineRead word.now text.now result }
{
    let start = Cursor { at: 0, lines: 0 };
    let read = start.line(text, word, &THREE_TABS)?;
    let rules = wide(read.values[0]);
    let nodes = wide(read.values[1]);
    let pool = wide(read.values[2]);
    if !counts_fit(rules, nodes, pool) {
        return Err(wrong(0));
    }
    Ok((Counts { rules, nodes, pool }, read.next))
}

// Whether the counts obey the limits.
#[tactic(auto, unfolding(crate::specs::TreeText::counts_fit))]
fn counts_fit(rules: usize, nodes: usize, pool: usize) -> bool
    ensures { result ≡ counts_fit rules nodes pool }
{
    rules <= MOST_RULES && 0 < nodes && nodes <= MOST_NODES && pool <= MOST_POOL
}

// The lines of the nodes, and the end line: a pool that falls short shows there.
fn node_lines(
    text: &[u8],
    next: Cursor,
    counts: Counts,
    nodes: &mut [u32],
    pool: &mut [u32],
) -> Result<Counts, Refusal>
    requires { Stands text.now next × Limits counts }
    ensures { PassRead (tree_from (begun counts) text.now next) nodes.old
        pool.old nodes.new pool.new result }
{
    let count = counts.nodes;
    let mut at = next.at;
    let mut lines = next.lines;
    let mut filled = 0;
    for i in 0..count {
        let c = Cursor { at, lines };
        let (sum, d) = node_line(text, c, counts, i, filled, nodes, pool)?;
        filled = sum;
        at = d.at;
        lines = d.lines;
    }
    end_line(text, Cursor { at, lines }, filled == counts.pool, count + 1)?;
    Ok(counts)
}
