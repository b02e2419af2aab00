// The tree search: from the root to a leaf, and then through the leaf's entries in turn.
ghost use Rattle.std.specs.Prelude.{◌<◌, Ok};
ghost use Rattle.facts.specs.Lists.{Kept};
ghost use Rattle.rules.specs.Matching.{matches};
ghost use Rattle.trees.specs.Words.{node_count};
ghost use Rattle.trees.specs.TreeAll.{TreeAllSearched};
ghost use Rattle.trees.specs.TreeFirst.{TreeFirstSearched};
ghost use Rattle.trees.specs.Steps.{Reaches, LeafJudged, Comparable, LeafListed, LeafFirst};

use crate::spelt::all_under;
use crate::walk::{Walked, walk_to};
use crate::words::{COUNT, START, node_word};
use fields::header::header_verdict;
use lent::{store, wide};
use refusals::Refusal;
use rules::line::Hit;
use rules::matching::rule_matches;
use rules::words::{RULE_WORDS, action_of};

// How many numbers were found, how many nodes were visited, and how many entries compared.
#[derive(Clone, Copy)]
pub struct Listed {
    pub count: usize,
    pub visited: usize,
    pub compared: usize,
}

// The first entry that matches, with its rule's action; and the same counts.
#[derive(Clone, Copy)]
pub struct First {
    pub hit: Option<Hit>,
    pub visited: usize,
    pub compared: usize,
}

// The leaf that both searches come to: where its entries start, how many there are, and the nodes visited.
#[derive(Clone, Copy)]
pub struct Reached {
    pub start: usize,
    pub count: usize,
    pub visited: usize,
}

// Every entry of the reached leaf that matches, in its order, from the front of `out` on; the rest of `out` is as
// found. A refusal writes nothing.
pub fn tree_all(
    rules: &[u32],
    nodes: &[u32],
    pool: &[u32],
    header: &[u32],
    out: &mut [u32],
) -> Result<Listed, Refusal>
    ensures { TreeAllSearched rules.now nodes.now pool.now header.now
        out.old result out.new }
{
    let Reached {
        start,
        count,
        visited,
    } = reach(rules, nodes, pool, header)?;
    let end = start + count;
    list_entries(rules, header, &pool[start..end], visited, out)
}

// The first entry of the reached leaf that matches and its rule's action, or that none does. Nothing is written.
pub fn tree_first(
    rules: &[u32],
    nodes: &[u32],
    pool: &[u32],
    header: &[u32],
) -> Result<First, Refusal>
    ensures { TreeFirstSearched rules.now nodes.now pool.now
        header.now result }
{
    let Reached {
        start,
        count,
        visited,
    } = reach(rules, nodes, pool, header)?;
    let end = start + count;
    Ok(first_entry(rules, header, &pool[start..end], visited))
}

// The leaf that a header comes to: the header is looked at first, then the nodes on the way, then the leaf.
fn reach(rules: &[u32], nodes: &[u32], pool: &[u32], header: &[u32]) -> Result<Reached, Refusal>
    ensures { Reaches rules.now nodes.now pool.now header.now result }
{
    header_verdict(header)?;
    let Walked { leaf, visited } = walk_to(nodes, header)?;
    at_leaf(rules, nodes, pool, leaf, visited)
}

// The words of a leaf, if its entries lie in the pool and each names a rule that is wholly lent.
fn at_leaf(
    rules: &[u32],
    nodes: &[u32],
    pool: &[u32],
    leaf: usize,
    visited: usize,
) -> Result<Reached, Refusal>
    requires { leaf < node_count nodes.now }
    ensures { LeafJudged rules.now nodes.now pool.now leaf visited result }
{
    let start = node_word(nodes, leaf, START);
    let count = node_word(nodes, leaf, COUNT);
    if pool.len() < start + count {
        return Err(Refusal::LeafWrong { node: leaf });
    }
    let end = start + count;
    if !all_under(rules.len() / RULE_WORDS, &pool[start..end]) {
        return Err(Refusal::LeafWrong { node: leaf });
    }
    Ok(Reached {
        start,
        count,
        visited,
    })
}

// The entries that match, if there is room for them all. Where the room holds the whole leaf, nothing need be counted
// first.
fn list_entries(
    rules: &[u32],
    header: &[u32],
    leaf: &[u32],
    visited: usize,
    out: &mut [u32],
) -> Result<Listed, Refusal>
    requires { Comparable rules.now header.now leaf.now }
    ensures { LeafListed rules.now header.now leaf.now visited
        out.old result out.new }
{
    let compared = leaf.len();
    if compared <= out.len() {
        return Ok(Listed {
            count: store_entries(rules, header, leaf, out),
            visited,
            compared,
        });
    }
    let needed = store_entries(rules, header, leaf, &mut out[..0]);
    if out.len() < needed {
        return Err(Refusal::OutputShort { needed, output: 0 });
    }
    Ok(Listed {
        count: store_entries(rules, header, leaf, out),
        visited,
        compared,
    })
}

// Stores the entries that match as far as there is room, and says how many match.
fn store_entries(rules: &[u32], header: &[u32], leaf: &[u32], out: &mut [u32]) -> usize
    requires { Comparable rules.now header.now leaf.now }
    ensures { Kept (matches rules.now header.now) leaf.now out.old result
        out.new }
{
    let mut n = 0;
    for &number in leaf {
        if rule_matches(rules, header, wide(number)) {
            store(out, n, number);
            n += 1;
        }
    }
    n
}

// The first entry that matches, its rule's action, and how many entries were compared.
fn first_entry(rules: &[u32], header: &[u32], leaf: &[u32], visited: usize) -> First
    requires { Comparable rules.now header.now leaf.now }
    ensures { LeafFirst rules.now header.now leaf.now visited (Ok result) }
{
    for (i, &number) in leaf.iter().enumerate() {
        let rule = wide(number);
        if rule_matches(rules, header, rule) {
            return First {
                hit: Some(Hit {
                    number,
                    action: action_of(rules, rule),
                }),
                visited,
                compared: i + 1,
            };
        }
    }
    First {
        hit: None,
        visited,
        compared: leaf.len(),
    }
}
