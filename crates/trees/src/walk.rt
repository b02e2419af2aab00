// The walk of a header from the root to a leaf, on any words.
ghost use Rattle.std.specs.Prelude.{◌<◌, ◌^◌, ◌≡◌, length};
ghost use Rattle.fields.specs.Words.{field_count};
ghost use Rattle.trees.specs.Words.{leaf_mark, node_count, field_of};
ghost use Rattle.trees.specs.Walk.{side_of, step_of, walk_of};
ghost use Rattle.trees.specs.Steps.{walked};

use crate::words::{CHILD, FIRST, LEAF_MARK, NODE_WORDS, VALUE, node_word};
use lent::wide;
use refusals::Refusal;

// What stands at a node, for a header: it is wrong, it is a leaf, or the walk goes on to another node.
#[derive(Clone, Copy)]
pub enum Step {
    Wrong,
    Leaf,
    Next(usize),
}

// Where a walk ends: at a leaf, with the number of nodes visited, root and leaf included.
#[derive(Clone, Copy)]
pub struct Walked {
    pub leaf: usize,
    pub visited: usize,
}

// The walk of a header from the root: a node on the way that is wrong is refused. Numbers rise on the way, so that it
// ends. The words of each node say which one is next, so that no range runs over them.
pub(crate) fn walk_to(nodes: &[u32], header: &[u32]) -> Result<Walked, Refusal>
    requires { length header.now ≡ field_count }
    ensures { result ≡ walked (walk_of nodes.now header.now) }
{
    let mut at = 0;
    let mut visited = 0;
    loop {
        match step_of(nodes, header, at) {
            Step::Wrong => return Err(Refusal::NodeWrong { node: at }),
            Step::Leaf => {
                return Ok(Walked {
                    leaf: at,
                    visited: visited + 1,
                });
            }
            Step::Next(node) => {
                at = node;
                visited += 1;
            }
        }
    }
}

// What stands at node `i`. That it is wholly there is looked at first, with no division. Then one test tells a cut, as
// most nodes on the way are.
#[tactic(auto, unfolding(crate::specs::Walk::step_of))]
fn step_of(nodes: &[u32], header: &[u32], i: usize) -> Step
    requires { (length header.now ≡ field_count) × (i < 2 ^ 62) }
    ensures { result ≡ step_of nodes.now header.now i }
{
    if nodes.len() < i * NODE_WORDS + NODE_WORDS {
        return Step::Wrong;
    }
    let first = node_word(nodes, i, FIRST);
    if LEAF_MARK <= first {
        if first == LEAF_MARK {
            return Step::Leaf;
        }
        return Step::Wrong;
    }
    if node_word(nodes, i, CHILD) <= i {
        return Step::Wrong;
    }
    Step::Next(side_of(nodes, header, i, first))
}

// Where the header goes from cut `i`. The value belongs left.
#[tactic(auto, unfolding(crate::specs::Walk::side_of))]
fn side_of(nodes: &[u32], header: &[u32], i: usize, field: usize) -> usize
    requires i_bound { (i < node_count nodes.now) × (field ≡ field_of nodes.now i) }
    requires field_lt_leaf_mark { (field < leaf_mark) × (length header.now ≡ field_count) }
    ensures { result ≡ side_of nodes.now header.now i }
{
    if wide(header[field]) <= node_word(nodes, i, VALUE) {
        return i + 1;
    }
    node_word(nodes, i, CHILD)
}
