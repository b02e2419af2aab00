// The preorder check of a tree's nodes: each part is checked by the same function, with one cut fewer allowed. Where
// `far` holds, the tree is one so far: its nodes may end before it does.
ghost use Rattle.std.specs.Prelude.{Ok, ◌+◌, ◌<◌, ◌≤◌, ◌^◌, ◌≡◌};
ghost use Rattle.rules.specs.Words.{rule_count};
ghost use Rattle.trees.specs.Words.{node_count};
ghost use Rattle.trees.specs.Spelt.{Spelt};
ghost use Rattle.tree_check.specs.Whole.{most_cuts};
ghost use Rattle.tree_check.specs.Preorder.{lack_of, leaf_part, no_part, child_at};
ghost use Rattle.tree_check.specs.Preorder.{earlier, after_right, preorder_of};
ghost use Rattle.tree_check.specs.Steps.{look_at};

use fields::bounds::{Bounds, divides, left_part, right_part};
use refusals::Refusal;
use rules::lacking::lowest_lacking;
use rules::words::RULE_WORDS;
use trees::words::{NODE_WORDS, Node, node_at};

// A leaf, and the lowest rule that it lacks.
#[derive(Clone, Copy)]
pub struct Lack {
    pub node: usize,
    pub rule: usize,
}

// What the check of a part finds: the node after it, the most cuts above a leaf, the longest leaf, and the first leaf
// that lacks a rule.
#[derive(Clone, Copy)]
pub struct Part {
    pub next: usize,
    pub cuts: usize,
    pub longest: usize,
    pub lack: Option<Lack>,
}

// The part that begins at a node, for a box, with `cuts` more cuts allowed: a cut, then its left part, then its right
// child's number, then its right part.
pub(crate) fn part_of(
    rules: &[u32],
    nodes: &[u32],
    pool: &[u32],
    at: usize,
    bounds: Bounds,
    cuts: usize,
    far: bool,
) -> Result<Part, Refusal>
    requires { Spelt (rule_count rules.now) nodes.now pool.now × (cuts ≤ most_cuts) }
    ensures { result ≡ preorder_of far cuts rules.now nodes.now pool.now bounds at }
{
    match look_at(nodes, at, bounds, cuts)? {
        None => no_part(at, far),
        Some(Node::Leaf { start, count }) => {
            let end = start + count;
            leaf_part(rules, &pool[start..end], at, bounds)
        }
        Some(
            Node::Cut {
                field,
                value,
                child,
            },
        ) => {
            let less = left_part(bounds, field, value);
            let left = part_of(rules, nodes, pool, at + 1, less, cuts - 1, far)?;
            let next = left.next;
            if child != child_at(nodes, next, far) {
                return Err(Refusal::NodeWrong { node: at });
            }
            let more = right_part(bounds, field, value);
            let right = part_of(rules, nodes, pool, next, more, cuts - 1, far)?;
            Ok(join(left, right))
        }
    }
}

// What stands at a node, for a box, with `cuts` more cuts allowed: the depth is looked at before the value.
#[tactic(auto, unfolding(crate::specs::Steps::look_at, crate::specs::Steps::look_in))]
fn look_at(nodes: &[u32], at: usize, bounds: Bounds, cuts: usize) -> Result<Option<Node>, Refusal>
    ensures { result ≡ look_at nodes.now cuts bounds at }
{
    match node_at(nodes, at) {
        None => Ok(None),
        Some(Node::Leaf { start, count }) => Ok(Some(Node::Leaf { start, count })),
        Some(
            Node::Cut {
                field,
                value,
                child,
            },
        ) => {
            if cuts == 0 {
                return Err(Refusal::NodeWrong { node: at });
            }
            if !divides(bounds, field, value) {
                return Err(Refusal::NodeWrong { node: at });
            }
            Ok(Some(Node::Cut {
                field,
                value,
                child,
            }))
        }
    }
}

// The part of a node that is not there: so far it is not begun, and lacks nothing.
fn no_part(at: usize, far: bool) -> Result<Part, Refusal>
    ensures { result ≡ no_part far at }
{
    if far {
        return Ok(Part {
            next: at,
            cuts: 0,
            longest: 0,
            lack: None,
        });
    }
    Err(Refusal::NodeWrong { node: at })
}

// The right child of a cut whose left part ends at `next`: so far 0 where no node is there.
fn child_at(nodes: &[u32], next: usize, far: bool) -> usize
    ensures { result ≡ child_at far (node_count nodes.now) next }
{
    if !far {
        return next;
    }
    if next < nodes.len() / NODE_WORDS {
        return next;
    }
    0
}

// A leaf with these entries: whether they rise strictly, and the lowest rule that they lack.
fn leaf_part(rules: &[u32], entries: &[u32], at: usize, bounds: Bounds) -> Result<Part, Refusal>
    requires { at < 2 ^ 63 }
    ensures { result ≡ leaf_part rules.now entries.now bounds at }
{
    if !entries.is_sorted_by(|a, b| *a < *b) {
        return Err(Refusal::LeafWrong { node: at });
    }
    Ok(Part {
        next: at + 1,
        cuts: 0,
        longest: entries.len(),
        lack: lack_of(rules, entries, at, bounds),
    })
}

// The lowest rule that the entries of leaf `at` lack in its box, or none.
fn lack_of(rules: &[u32], entries: &[u32], at: usize, bounds: Bounds) -> Option<Lack>
    ensures { result ≡ lack_of rules.now entries.now bounds at }
{
    // The case of none stands by itself, so that a wrong answer can be tried in its place.
    match lowest_lacking(rules, entries, bounds) {
        None => None,
        Some(rule) => Some(Lack { node: at, rule }),
    }
}

// The left and the right part of a cut, as one.
fn join(left: Part, right: Part) -> Part
    requires { (left.cuts < 2 ^ 63) × (right.cuts < 2 ^ 63) }
    ensures { Ok result ≡ after_right left.cuts left.longest left.lack (Ok right) }
{
    Part {
        next: right.next,
        cuts: left.cuts.max(right.cuts) + 1,
        longest: left.longest.max(right.longest),
        lack: left.lack.or(right.lack),
    }
}
