// Growing a tree in preorder: a node, then its left part, then its right part. Each part is grown by the same function,
// with one cut fewer allowed. Nodes that stand already are copied.
ghost use Rattle.std.specs.Prelude.{◌+◌, ◌*◌, ◌<◌, ◌≤◌, [], ◌∷◌, ◌≡◌, length, take, drop};
ghost use Rattle.std.proofs.lemmas.List.Edits.{sets};
ghost use Rattle.fields.specs.Words.{field_count};
ghost use Rattle.rules.specs.Words.{most_rules};
ghost use Rattle.trees.specs.Words.{node_words, most_nodes};
ghost use Rattle.built.specs.Trees.{leaf};
ghost use Rattle.built.specs.Stops.{child_before};
ghost use Rattle.builder.specs.Growing.{grown_at, GrownPart, Growable, LeafFits, Looked, left_spot, right_spot};

use crate::boxes::keep_meeting;
use crate::choice::{Choice, choice_of};
use fields::bounds::{Bounds, left_part, right_part};
use lent::store_all;
use refusals::Refusal;
use rules::words::MOST_RULES;
use trees::words::{LEAF_MARK, NODE_WORDS, store_node};

// What growing a part comes to: the node after it, how many entries there are then, and whether it goes on, its last
// part being not begun.
#[derive(Clone, Copy)]
pub struct Grown {
    pub next: usize,
    pub entries: usize,
    pub goes_on: bool,
}

// What a part begins with: a leaf of so many entries; or a cut, where so many boxes meet.
#[derive(Clone, Copy)]
pub enum Look {
    Leaf {
        count: usize,
    },
    Cut {
        field: usize,
        value: u32,
        count: usize,
    },
}

// Where a part begins: at which node, after how many entries; and how many more cuts are allowed there.
#[derive(Clone, Copy)]
pub struct Spot {
    pub node: usize,
    pub entries: usize,
    pub cuts: usize,
}

// How many words of nodes and of entries there is room for; and the first node that is not grown, whatever the room.
#[derive(Clone, Copy)]
pub struct Room {
    pub nodes: usize,
    pub pool: usize,
    pub end: usize,
}

// The part of a box that begins at a spot, as far as it is before the room's end. `above` has the numbers of the boxes
// that meet the box around it, `standing` and `kept` the nodes that stand already and their entries. Words are stored
// as far as `nodes` and `pool` reach; 4 goes by `room`.
pub(crate) fn grow(
    boxes: &[u32],
    above: &[u32],
    standing: &[u32],
    kept: &[u32],
    bounds: Bounds,
    spot: Spot,
    room: Room,
    nodes: &mut [u32],
    pool: &mut [u32],
) -> Result<Grown, Refusal>
    requires { Growable boxes.now above.now standing.now kept.now bounds spot room }
    ensures { GrownPart
        (grown_at boxes.now standing.now kept.now bounds spot room) spot room
        nodes.old pool.old result nodes.new pool.new }
{
    let mut met = [0u32; MOST_RULES];
    match look_at(boxes, above, standing, kept, bounds, spot, room, &mut met)? {
        None => Ok(Grown {
            next: spot.node,
            entries: spot.entries,
            goes_on: true,
        }),
        Some(Look::Leaf { count }) => leaf_part(&met[..count], spot, room, nodes, pool),
        Some(
            Look::Cut {
                field,
                value,
                count,
            },
        ) => {
            let less = left_part(bounds, field, value);
            let left = grow(
                boxes,
                &met[..count],
                standing,
                kept,
                less,
                left_spot(spot),
                room,
                nodes,
                pool,
            )?;
            let next = left.next;
            store_cut(nodes, spot, field, value, right_child(next, room.end));
            let more = right_part(bounds, field, value);
            grow(
                boxes,
                &met[..count],
                standing,
                kept,
                more,
                right_spot(spot, next, left.entries),
                room,
                nodes,
                pool,
            )
        }
    }
}

// What a part begins with, where it is begun. In front of `met` stand the entries of a leaf, or the numbers of the boxes
// that meet the box of a cut.
fn look_at(
    boxes: &[u32],
    above: &[u32],
    standing: &[u32],
    kept: &[u32],
    bounds: Bounds,
    spot: Spot,
    room: Room,
    met: &mut [u32],
) -> Result<Option<Look>, Refusal>
    requires { Growable boxes.now above.now standing.now kept.now bounds spot room ×
        (most_rules ≤ length met.old) }
    ensures { Looked boxes.now standing.now kept.now bounds spot room
        met.new result }
{
    let at = spot.node;
    if room.end <= at {
        return Ok(None);
    }
    let words = (at + 1) * NODE_WORDS;
    if room.nodes < words {
        return Err(Refusal::OutputShort {
            needed: words,
            output: 0,
        });
    }
    let count = keep_meeting(boxes, above, bounds, met);
    match choice_of(boxes, &met[..count], standing, bounds, at, spot.cuts) {
        Choice::Leaf => Ok(Some(Look::Leaf { count })),
        Choice::Stands { start, count: long } => {
            copy_entries(kept, start, long, met);
            Ok(Some(Look::Leaf { count: long }))
        }
        Choice::Cut { field, value } => Ok(Some(Look::Cut {
            field,
            value,
            count,
        })),
    }
}

// Copies the entries of a leaf that stands, `count` of them from `start` on, to the front of `met`.
fn copy_entries(kept: &[u32], start: usize, count: usize, met: &mut [u32])
    requires { start + count ≤ length kept.now }
    ensures { met.new ≡ sets met.old 0 (take count (drop start kept.now)) }
{
    let end = start + count;
    store_all(met, 0, &kept[start..end]);
}

// Where the left part of a cut begins.
fn left_spot(spot: Spot) -> Spot
    requires { (0 < spot.cuts) × (spot.node ≤ most_nodes) }
    ensures { result ≡ left_spot spot }
{
    Spot {
        node: spot.node + 1,
        entries: spot.entries,
        cuts: spot.cuts - 1,
    }
}

// Where the right part of a cut begins: after its left part.
fn right_spot(spot: Spot, next: usize, entries: usize) -> Spot
    requires { 0 < spot.cuts }
    ensures { result ≡ right_spot spot next entries }
{
    Spot {
        node: next,
        entries,
        cuts: spot.cuts - 1,
    }
}

// The right child of a cut whose right part is to begin at node `next`: 0 where that is not before the end.
fn right_child(next: usize, end: usize) -> usize
    ensures { result ≡ child_before end next }
{
    if next < end {
        return next;
    }
    0
}

// A leaf with these entries.
fn leaf_part(
    list: &[u32],
    spot: Spot,
    room: Room,
    nodes: &mut [u32],
    pool: &mut [u32],
) -> Result<Grown, Refusal>
    requires { LeafFits list.now spot room }
    ensures { GrownPart (leaf list.now) spot room nodes.old pool.old result
        nodes.new pool.new }
{
    let at = spot.node;
    let entries = spot.entries;
    let end = entries + list.len();
    if room.pool < end {
        return Err(Refusal::OutputShort {
            needed: end,
            output: 1,
        });
    }
    store_node(
        nodes,
        at,
        [LEAF_MARK as u32, entries as u32, list.len() as u32],
    );
    store_all(pool, entries, list);
    Ok(Grown {
        next: at + 1,
        entries: end,
        goes_on: false,
    })
}

// Stores the words of a cut.
fn store_cut(nodes: &mut [u32], spot: Spot, field: usize, value: u32, child: usize)
    requires { (spot.node < most_nodes) × (field < field_count) × (child ≤ most_nodes) }
    ensures { nodes.new ≡ sets nodes.old (spot.node * node_words)
        (field ∷ value ∷ child ∷ []) }
{
    let at = spot.node;
    store_node(nodes, at, [field as u32, value, child as u32]);
}
