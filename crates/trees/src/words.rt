// The words of a tree.
ghost use Rattle.std.specs.Prelude.{◌*◌, ◌<◌, ◌≡◌};
ghost use Rattle.std.proofs.lemmas.List.Edits.{sets};
ghost use Rattle.trees.specs.Words.{node_words, node_count, value_of};
ghost use Rattle.trees.specs.Node.{node_at};
ghost use Rattle.trees.specs.Steps.{WordRead};

use fields::header::FIELDS;
use lent::{store, wide};

// The words of a node.
pub const NODE_WORDS: usize = 3;

// The most nodes of a tree, and the most words of its pool.
pub const MOST_NODES: usize = 2047;

pub const MOST_POOL: usize = 4096;

// The first word of a leaf, the number of fields; that of a cut is its field.
pub const LEAF_MARK: usize = FIELDS;

// The words of a node by their places: a cut's field, value and right child; a leaf's mark, start and count.
pub const FIRST: usize = 0;

pub const VALUE: usize = 1;

pub const CHILD: usize = 2;

pub const START: usize = 1;

pub const COUNT: usize = 2;

// What stands at a node: a leaf, or a cut.
#[derive(Clone, Copy)]
pub enum Node {
    Leaf {
        start: usize,
        count: usize,
    },
    Cut {
        field: usize,
        value: u32,
        child: usize,
    },
}

// Node `i` by its words, if it is there. A first word that is no field is taken for a leaf's mark.
#[tactic(auto, unfolding(crate::specs::Node::node_at))]
pub fn node_at(nodes: &[u32], i: usize) -> Option<Node>
    ensures { result ≡ node_at nodes.now i }
{
    if nodes.len() / NODE_WORDS <= i {
        return None;
    }
    let first = node_word(nodes, i, FIRST);
    if LEAF_MARK <= first {
        return Some(Node::Leaf {
            start: node_word(nodes, i, START),
            count: node_word(nodes, i, COUNT),
        });
    }
    Some(Node::Cut {
        field: first,
        value: value_word(nodes, i),
        child: node_word(nodes, i, CHILD),
    })
}

// Puts the words of node `i`, as far as there is room; a place past the end changes nothing.
pub fn store_node(nodes: &mut [u32], i: usize, words: [u32; NODE_WORDS])
    ensures { nodes.new ≡ sets nodes.old (i * node_words) words }
{
    // Not by `store_all`: the compiler makes a `memcpy` of it here, and the readers of trees do without.
    let at = i.saturating_mul(NODE_WORDS);
    for j in 0..NODE_WORDS {
        store(nodes, at.saturating_add(j), words[j]);
    }
}

// The value of cut `i`.
fn value_word(nodes: &[u32], i: usize) -> u32
    requires { i < node_count nodes.now }
    ensures { result ≡ value_of nodes.now i }
{
    nodes[i * NODE_WORDS + VALUE]
}

// Word `j` of node `i`, as a place or a count.
pub(crate) fn node_word(nodes: &[u32], i: usize, j: usize) -> usize
    requires { (i < node_count nodes.now) × (j < node_words) }
    ensures { WordRead nodes.now i j result }
{
    wide(nodes[i * NODE_WORDS + j])
}
