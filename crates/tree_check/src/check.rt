// The tree check: the list, the sizes, the words node by node, and then the nodes in preorder.
ghost use Rattle.std.specs.Prelude.{◌≡◌};
ghost use Rattle.tree_check.specs.TreeCheck.{end_verdict, list_and_sizes, words_verdict, TreeChecked};

use crate::preorder::{Lack, part_of};
use fields::bounds::root_box;
use refusals::Refusal;
use rules::check::list_verdict;
use rules::words::RULE_WORDS;
use trees::spelt::{size_verdict, spelt_verdict};
use trees::words::NODE_WORDS;

// The most cuts above a leaf.
pub const MOST_CUTS: usize = 63;

// The most cuts above a leaf, and the longest leaf.
#[derive(Clone, Copy)]
pub struct Figures {
    pub cuts: usize,
    pub longest: usize,
}

// The figures of a tree that may serve: the most cuts above a leaf, and the longest leaf. Nothing is written.
pub fn tree_check(rules: &[u32], nodes: &[u32], pool: &[u32]) -> Result<Figures, Refusal>
    ensures { TreeChecked rules.now nodes.now pool.now result }
{
    // The refusal is named, and not handed on by `?`, so that a wrong answer can be tried in its place.
    if let Err(why) = words_verdict(rules, nodes, pool) {
        return Err(why);
    }
    let part = part_of(rules, nodes, pool, 0, root_box(), MOST_CUTS, false)?;
    end_verdict(part.next, part.lack, nodes.len() / NODE_WORDS)?;
    Ok(Figures {
        cuts: part.cuts,
        longest: part.longest,
    })
}

// What is refused before the preorder walk: the list, the sizes, and then the words of the nodes and the pool.
fn words_verdict(rules: &[u32], nodes: &[u32], pool: &[u32]) -> Result<(), Refusal>
    ensures { result ≡ words_verdict rules.now nodes.now pool.now }
{
    list_and_sizes(rules, nodes, pool)?;
    spelt_verdict(rules.len() / RULE_WORDS, nodes, pool)
}

// The list, and then the sizes.
pub(crate) fn list_and_sizes(rules: &[u32], nodes: &[u32], pool: &[u32]) -> Result<(), Refusal>
    ensures { result ≡ list_and_sizes rules.now nodes.now pool.now }
{
    list_verdict(rules)?;
    size_verdict(nodes, pool)
}

// Of `count` nodes, where the root's part ends at `next`: a node left over comes before a rule that is lacking.
pub(crate) fn end_verdict(next: usize, lack: Option<Lack>, count: usize) -> Result<(), Refusal>
    ensures { result ≡ end_verdict count next lack }
{
    if next != count {
        return Err(Refusal::NodeWrong { node: next });
    }
    match lack {
        None => Ok(()),
        Some(Lack { node, rule }) => Err(Refusal::LeafLacksRule { node, rule }),
    }
}
