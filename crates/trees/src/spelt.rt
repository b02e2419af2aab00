// *Spelt*: whether the words of a tree are what they must be, node by node.
ghost use Rattle.std.specs.Prelude.{◌<◌, ◌≡◌};
ghost use Rattle.facts.specs.Lists.{all_under};
ghost use Rattle.trees.specs.Words.{node_count, size_verdict};
ghost use Rattle.trees.specs.Spelt.{leaf_count, counts_below, leaf_spelt, node_verdict, spelt_verdict};

use crate::words::{
    CHILD, COUNT, FIRST, LEAF_MARK, MOST_NODES, MOST_POOL, NODE_WORDS, START, node_word,
};
use lent::wide;
use refusals::Refusal;

// Whether there are nodes, whole ones and not too many, and the pool is not too long.
pub fn size_verdict(nodes: &[u32], pool: &[u32]) -> Result<(), Refusal>
    ensures { result ≡ size_verdict nodes.now pool.now }
{
    if nodes.is_empty() {
        return Err(Refusal::TreeWordsWrong);
    }
    if nodes.len() % NODE_WORDS != 0 {
        return Err(Refusal::TreeWordsWrong);
    }
    if MOST_NODES * NODE_WORDS < nodes.len() {
        return Err(Refusal::TreeWordsWrong);
    }
    if MOST_POOL < pool.len() {
        return Err(Refusal::TreeWordsWrong);
    }
    Ok(())
}

// Whether the nodes are spelt for `rules` rules, from the lowest, and all counts together make the pool.
pub fn spelt_verdict(rules: usize, nodes: &[u32], pool: &[u32]) -> Result<(), Refusal>
    ensures { result ≡ spelt_verdict rules nodes.now pool.now }
{
    let count = nodes.len() / NODE_WORDS;
    let mut sum = 0;
    for node in 0..count {
        node_verdict(rules, nodes, pool, node, sum)?;
        sum += leaf_count(nodes, node);
    }
    if sum != pool.len() {
        return Err(Refusal::LeafWrong { node: count });
    }
    Ok(())
}

// Whether node `i` is spelt, `sum` being the counts of the leaves below it.
fn node_verdict(
    rules: usize,
    nodes: &[u32],
    pool: &[u32],
    i: usize,
    sum: usize,
) -> Result<(), Refusal>
    requires { (i < node_count nodes.now) × (sum ≡ counts_below nodes.now i) }
    ensures { result ≡ node_verdict rules nodes.now pool.now i }
{
    let first = node_word(nodes, i, FIRST);
    if LEAF_MARK < first {
        return Err(Refusal::NodeWrong { node: i });
    }
    if first < LEAF_MARK {
        if node_word(nodes, i, CHILD) < nodes.len() / NODE_WORDS {
            return Ok(());
        }
        return Err(Refusal::NodeWrong { node: i });
    }
    if leaf_spelt(rules, nodes, pool, i, sum) {
        return Ok(());
    }
    Err(Refusal::LeafWrong { node: i })
}

// Whether leaf `i` is spelt: its start, its count, its end, its entries.
fn leaf_spelt(rules: usize, nodes: &[u32], pool: &[u32], i: usize, sum: usize) -> bool
    requires { (i < node_count nodes.now) × (sum ≡ counts_below nodes.now i) }
    ensures { result ≡ leaf_spelt rules nodes.now pool.now i }
{
    let start = node_word(nodes, i, START);
    let count = node_word(nodes, i, COUNT);
    if start != sum {
        return false;
    }
    if rules < count {
        return false;
    }
    if pool.len() < start + count {
        return false;
    }
    let end = start + count;
    all_under(rules, &pool[start..end])
}

// The count of leaf `i`; 0 for a cut.
#[tactic(auto, unfolding(crate::specs::Spelt::leaf_count))]
fn leaf_count(nodes: &[u32], i: usize) -> usize
    requires { i < node_count nodes.now }
    ensures { result ≡ leaf_count nodes.now i }
{
    if node_word(nodes, i, FIRST) < LEAF_MARK {
        return 0;
    }
    node_word(nodes, i, COUNT)
}

// Whether every number is below `n`.
pub(crate) fn all_under(n: usize, numbers: &[u32]) -> bool
    ensures { result ≡ all_under n numbers.now }
{
    numbers.iter().all(|number| wide(*number) < n)
}
