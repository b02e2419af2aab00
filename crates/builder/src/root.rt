// A list's tree from its root: it is grown into words of its own, from the nodes that stand already, and its words are
// stored where all of them fit.
ghost use Rattle.std.specs.Prelude.{◌≤◌, ◌^◌, ◌≡◌, length};
ghost use Rattle.facts.specs.Lists.{up_from};
ghost use Rattle.refusals.specs.Verdict.{Fine};
ghost use Rattle.rules.specs.Words.{most_rules, rule_count};
ghost use Rattle.rules.specs.Good.{list_verdict};
ghost use Rattle.trees.specs.Spelt.{Spelt};
ghost use Rattle.built.specs.Boxes.{boxes_of};
ghost use Rattle.built.specs.GrownOn.{tree_on};
ghost use Rattle.built.specs.Stops.{up_to};
ghost use Rattle.builder.specs.BoxWords.{box_count, boxes_in};
ghost use Rattle.builder.specs.Growing.{GrownPart};
ghost use Rattle.builder.specs.BuildSteps.{root_spot, room_of, Rooted, RootGrown};

use crate::boxes::{BOX_WORDS, fill_boxes};
use crate::grow::{Grown, Room, Spot, grow};
use fields::bounds::root_box;
use lent::store_all;
use refusals::Refusal;
use rules::words::{MOST_RULES, RULE_WORDS};
use tree_check::check::MOST_CUTS;
use trees::words::{MOST_NODES, MOST_POOL, NODE_WORDS};

// The tree of a good list, by the boxes of its rules, as far as it is before node `end`.
pub(crate) fn grow_list(
    rules: &[u32],
    standing: &[u32],
    kept: &[u32],
    end: usize,
    nodes: &mut [u32],
    pool: &mut [u32],
) -> Result<Grown, Refusal>
    requires { (list_verdict rules.now ≡ Fine) × Spelt (rule_count rules.now) standing.now kept.now }
    ensures { RootGrown
        (up_to end (tree_on (boxes_of rules.now) standing.now kept.now) 0)
        nodes.old pool.old result nodes.new pool.new }
{
    let words = rules.len() / RULE_WORDS * BOX_WORDS;
    let mut boxes = [0u32; MOST_RULES * BOX_WORDS];
    fill_boxes(rules, &mut boxes);
    grow_boxes(&boxes[..words], standing, kept, end, nodes, pool)
}

// The tree of some boxes: it is grown into words of its own, and stored only where it fits.
fn grow_boxes(
    boxes: &[u32],
    standing: &[u32],
    kept: &[u32],
    end: usize,
    nodes: &mut [u32],
    pool: &mut [u32],
) -> Result<Grown, Refusal>
    requires { (box_count boxes.now ≤ most_rules) × Spelt (box_count boxes.now) standing.now kept.now }
    ensures { RootGrown
        (up_to end (tree_on (boxes_in boxes.now) standing.now kept.now) 0)
        nodes.old pool.old result nodes.new pool.new }
{
    let room = room_of(nodes.len(), pool.len(), end);
    let mut words = [0u32; MOST_NODES * NODE_WORDS];
    let mut list = [0u32; MOST_POOL];
    let grown = grow_root(boxes, standing, kept, room, &mut words, &mut list)?;
    let count = grown.next * NODE_WORDS;
    let entries = grown.entries;
    store_all(nodes, 0, &words[..count]);
    store_all(pool, 0, &list[..entries]);
    Ok(grown)
}

// The tree of the root's box: every box may meet it.
fn grow_root(
    boxes: &[u32],
    standing: &[u32],
    kept: &[u32],
    room: Room,
    nodes: &mut [u32],
    pool: &mut [u32],
) -> Result<Grown, Refusal>
    requires { Rooted boxes.now standing.now kept.now room }
    ensures { GrownPart
        (up_to room.end (tree_on (boxes_in boxes.now) standing.now kept.now) 0)
        root_spot room nodes.old pool.old result nodes.new pool.new }
{
    let mut all = [0u32; MOST_RULES];
    count_up(&mut all);
    let count = boxes.len() / BOX_WORDS;
    grow(
        boxes,
        &all[..count],
        standing,
        kept,
        root_box(),
        root_spot(),
        room,
        nodes,
        pool,
    )
}

// Where the root begins.
fn root_spot() -> Spot
    ensures { result ≡ root_spot }
{
    Spot {
        node: 0,
        entries: 0,
        cuts: MOST_CUTS,
    }
}

// The room for node words and for pool words: what is lent, but no more than a tree may have.
fn room_of(nodes: usize, pool: usize, end: usize) -> Room
    ensures { result ≡ room_of nodes pool end }
{
    Room {
        nodes: nodes.min(MOST_NODES * NODE_WORDS),
        pool: pool.min(MOST_POOL),
        end,
    }
}

// Stores the numbers from 0 on.
fn count_up(out: &mut [u32])
    requires { length out.old ≤ 2 ^ 32 }
    ensures { out.new ≡ up_from 0 (length out.old) }
{
    for i in 0..out.len() {
        out[i] = i as u32;
    }
}
