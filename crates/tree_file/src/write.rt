// Writing a tree's file or a part's, line by line: they differ in the first word alone.
ghost use Rattle.std.specs.Prelude.{◌≡◌, [], ◌∷◌, length};
ghost use Rattle.text.specs.Words.{cut_word, leaf_word, four_tabs};
ghost use Rattle.text.specs.Line.{print_line, ended};
ghost use Rattle.text.specs.Puts.{Put};
ghost use Rattle.text.specs.Said.{Said};
ghost use Rattle.tree_file.specs.TreeLines.{first_line, node_line, leaf_marks, file_text, Spelling};
ghost use Rattle.tree_file.specs.Writing.{spelling_verdict, FileWritten, TreeWritten, PartWritten};
ghost use Rattle.tree_file.specs.WriteSteps.{Writable};

use refusals::Refusal;
use rules::words::MOST_RULES;
use text::end::put_end;
use text::put::{put, put_bytes, put_fields, put_line, put_numbers};
use text::words::{CUT, FOUR_TABS, LEAF, NEWLINE, PART, THREE_TABS, TREE, TWO_TABS};
use trees::spelt::{size_verdict, spelt_verdict};
use trees::words::{NODE_WORDS, Node, node_at};

// The file of a tree for `rules` rules, from the front of `text` on; the rest of `text` is as found. A refusal writes
// nothing.
pub fn tree_write(
    rules: usize,
    nodes: &[u32],
    pool: &[u32],
    text: &mut [u8],
) -> Result<usize, Refusal>
    ensures { TreeWritten rules nodes.now pool.now text.old result
        text.new }
{
    file_write(&TREE, rules, nodes, pool, text)
}

// The same of a part: a tree whose compile was stopped.
pub fn part_write(
    rules: usize,
    nodes: &[u32],
    pool: &[u32],
    text: &mut [u8],
) -> Result<usize, Refusal>
    ensures { PartWritten rules nodes.now pool.now text.old result
        text.new }
{
    file_write(&PART, rules, nodes, pool, text)
}

// The file that begins with the word, if there is such a file.
fn file_write(
    word: &[u8],
    rules: usize,
    nodes: &[u32],
    pool: &[u32],
    text: &mut [u8],
) -> Result<usize, Refusal>
    ensures { FileWritten word.now rules nodes.now pool.now
        text.old result text.new }
{
    spelling_verdict(rules, nodes, pool)?;
    write_whole(word, rules, nodes, pool, text)
}

// Whether there is such a file: the number of rules, the sizes, then *spelt*.
fn spelling_verdict(rules: usize, nodes: &[u32], pool: &[u32]) -> Result<(), Refusal>
    ensures { result ≡ spelling_verdict rules nodes.now pool.now }
{
    if MOST_RULES < rules {
        return Err(Refusal::RuleWordsWrong);
    }
    size_verdict(nodes, pool)?;
    spelt_verdict(rules, nodes, pool)
}

// The file, if there is room for it: it is written once into no room, which counts its bytes, then into the whole.
fn write_whole(
    word: &[u8],
    rules: usize,
    nodes: &[u32],
    pool: &[u32],
    text: &mut [u8],
) -> Result<usize, Refusal>
    requires { Spelling rules nodes.now pool.now }
    ensures { Said (file_text word.now rules nodes.now pool.now)
        text.old result text.new }
{
    let needed = write_pass(word, rules, nodes, pool, &mut text[..0]);
    if text.len() < needed {
        return Err(Refusal::OutputShort { needed, output: 0 });
    }
    Ok(write_pass(word, rules, nodes, pool, text))
}

// The whole file, as far as there is room; and its length.
fn write_pass(word: &[u8], rules: usize, nodes: &[u32], pool: &[u32], text: &mut [u8]) -> usize
    requires { Spelling rules nodes.now pool.now }
    ensures { Put text.old 0
        (file_text word.now rules nodes.now pool.now) text.new result }
{
    let count = nodes.len() / NODE_WORDS;
    let mut at = put_first(text, word, rules as u32, count as u32, pool.len() as u32);
    for i in 0..count {
        at = put_node(text, at, nodes, pool, i);
    }
    put_end(text, at, count as u32 + 1)
}

// The first line.
fn put_first(text: &mut [u8], word: &[u8], rules: u32, nodes: u32, pool: u32) -> usize
    ensures { Put text.old 0 (ended (first_line word.now rules nodes pool))
        text.new result }
{
    let values = [rules, nodes, pool];
    put_line(text, 0, word, &THREE_TABS, &values)
}

// The line of node `i`.
fn put_node(text: &mut [u8], at: usize, nodes: &[u32], pool: &[u32], i: usize) -> usize
    requires { Writable nodes.now pool.now i }
    ensures { Put text.old at (ended (node_line nodes.now pool.now i))
        text.new result }
{
    match node_at(nodes, i) {
        None => at,
        Some(Node::Leaf { start, count }) => {
            let end = start + count;
            put_leaf(text, at, i as u32, count as u32, &pool[start..end])
        }
        Some(
            Node::Cut {
                field,
                value,
                child,
            },
        ) => put_cut(text, at, i as u32, field as u32, value, child as u32),
    }
}

// The line of a cut.
fn put_cut(text: &mut [u8], at: usize, i: u32, field: u32, value: u32, child: u32) -> usize
    ensures { Put text.old at
        (ended (print_line cut_word four_tabs (i ∷ field ∷ value ∷ child ∷ []))) text.new result }
{
    let values = [i, field, value, child];
    put_line(text, at, &CUT, &FOUR_TABS, &values)
}

// The line of a leaf.
fn put_leaf(text: &mut [u8], at: usize, i: u32, count: u32, entries: &[u32]) -> usize
    ensures { Put text.old at
        (ended (print_line leaf_word (leaf_marks (length entries.now)) (i ∷ count ∷ entries.now)))
        text.new result }
{
    let p = put_bytes(text, at, &LEAF);
    let values = [i, count];
    let q = put_fields(text, p, &TWO_TABS, &values);
    let r = put_numbers(text, q, entries);
    put(text, r, NEWLINE)
}
