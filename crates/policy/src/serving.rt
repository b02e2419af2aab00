// Who serves: the tree, where the reader took it and the tree check accepts it for the list; else the list.
ghost use Rattle.std.specs.Prelude.{◌≡◌, []};
ghost use Rattle.refusals.specs.Verdict as verdict;
ghost use Rattle.tree_check.specs.TreeCheck.{check_verdict};
ghost use Rattle.policy.specs.WhoServes.{by_tree, serving, serving_of};

use crate::tree::Words;
use refusals::Refusal;
use tree_check::check::tree_check;

// Why the tree was refused, or that it was not; whether the tree was accepted; and how many words its nodes and its
// pool have, none where the list serves.
#[derive(Clone, Copy)]
pub struct Serving {
    pub refused: Result<(), Refusal>,
    pub accepted: bool,
    pub nodes: usize,
    pub pool: usize,
}

// Who serves the list `rules`, by what was taken of the tree file: the tree's words stand in front of `nodes` and
// `pool`. Nothing is written.
pub fn who_serves(
    taken: Result<Words, Refusal>,
    rules: &[u32],
    nodes: &[u32],
    pool: &[u32],
) -> Serving
    ensures { result ≡ serving_of taken rules.now nodes.now pool.now }
{
    match taken {
        Err(why) => by_list(why),
        Ok(words) => {
            let a = words.nodes.min(nodes.len());
            let b = words.pool.min(pool.len());
            checked(rules, &nodes[..a], &pool[..b])
        }
    }
}

// Who serves, by a tree's words: the tree check decides.
fn checked(rules: &[u32], nodes: &[u32], pool: &[u32]) -> Serving
    ensures { result ≡ serving (check_verdict rules.now nodes.now pool.now)
        nodes.now pool.now }
{
    match tree_check(rules, nodes, pool) {
        Err(why) => by_list(why),
        Ok(_) => by_tree(nodes.len(), pool.len()),
    }
}

// The list serves, and the tree was refused.
fn by_list(why: Refusal) -> Serving
    ensures { result ≡ serving (verdict.Refused why) [] [] }
{
    Serving {
        refused: Err(why),
        accepted: false,
        nodes: 0,
        pool: 0,
    }
}

// The tree serves, with `nodes` node words and `pool` pool words.
fn by_tree(nodes: usize, pool: usize) -> Serving
    ensures { result ≡ by_tree nodes pool }
{
    Serving {
        refused: Ok(()),
        accepted: true,
        nodes,
        pool,
    }
}
