// The writers and the readers of the tree file and of the part file for C.
ghost use Rattle.std.specs.Prelude.{◌≡◌};
ghost use Rattle.tree_file.specs.Reading as read;
ghost use Rattle.exports.specs.Answers.{plainly, as_eight};
ghost use Rattle.exports.specs.Calls.{TreeWriteAnswered, TreeReadAnswered};
ghost use Rattle.exports.specs.Calls.{PartWriteAnswered, PartReadAnswered};

use crate::answer::{of_number, of_refusal};
use refusals::Refusal;
use tree_file::read::Counts;

// The value: the bytes that were written to `text`. The tree is for `rules` rules.
pub fn wick_tree_write(
    rules: u64,
    nodes: &[u32],
    pool: &[u32],
    text: &mut [u8],
    answer: &mut [u64; 8],
)
    ensures { TreeWriteAnswered rules nodes.now pool.now text.old
        text.new answer.new }
{
    *answer = of_number(tree_file::write::tree_write(rules as usize, nodes, pool, text));
}

// The values: the numbers of rules, nodes and pool words; the last two were written to `nodes` and `pool`.
pub fn wick_tree_read(text: &[u8], nodes: &mut [u32], pool: &mut [u32], answer: &mut [u64; 8])
    ensures { TreeReadAnswered text.now nodes.old pool.old nodes.new
        pool.new answer.new }
{
    *answer = of_read(tree_file::read::tree_read(text, nodes, pool));
}

// The value: the bytes that were written to `text`. The part is for `rules` rules.
pub fn wick_part_write(
    rules: u64,
    nodes: &[u32],
    pool: &[u32],
    text: &mut [u8],
    answer: &mut [u64; 8],
)
    ensures { PartWriteAnswered rules nodes.now pool.now text.old
        text.new answer.new }
{
    *answer = of_number(tree_file::write::part_write(rules as usize, nodes, pool, text));
}

// The values: the numbers of rules, nodes and pool words; the last two were written to `nodes` and `pool`.
pub fn wick_part_read(text: &[u8], nodes: &mut [u32], pool: &mut [u32], answer: &mut [u64; 8])
    ensures { PartReadAnswered text.now nodes.old pool.old nodes.new
        pool.new answer.new }
{
    *answer = of_read(tree_file::read::part_read(text, nodes, pool));
}

fn of_read(said: Result<Counts, Refusal>) -> [u64; 8]
    ensures { result ≡ as_eight plainly (read.paper said) }
{
    match said {
        Err(why) => of_refusal(why),
        Ok(Counts { rules, nodes, pool }) => {
            [0, 0, 0, rules as u64, nodes as u64, pool as u64, 0, 0]
        }
    }
}
