// The part of the part file: a tree whose compile was stopped.
ghost use Rattle.std.specs.Prelude.{◌≡◌, length};
ghost use Rattle.tree_check.specs.PartCheck.{so_far_verdict};
ghost use Rattle.policy.specs.Files.{text_in};
ghost use Rattle.policy.specs.TakePart.{PartTaken, begun_by, goes_on};

use crate::file::text_of;
use refusals::Refusal;
use tree_check::part::part_check;
use tree_file::read::part_read;
use trees::words::NODE_WORDS;

// The number of rules that a part was made for, and how many words its nodes and its pool have.
#[derive(Clone, Copy)]
pub struct Begun {
    pub rules: usize,
    pub nodes: usize,
    pub pool: usize,
}

// The words of the part, from the front of `nodes` and of `pool` on; the rest of both is as found. A refusal writes
// nothing.
pub fn take_part(
    file: Option<usize>,
    buffer: &[u8],
    nodes: &mut [u32],
    pool: &mut [u32],
) -> Result<Begun, Refusal>
    ensures { PartTaken (text_in file buffer.now) nodes.old pool.old result
        nodes.new pool.new }
{
    let Some(text) = text_of(file, buffer) else {
        return Err(Refusal::FileNotRead);
    };
    // The reader says how many nodes there are; each has its words.
    let read = part_read(text, nodes, pool)?;
    Ok(Begun {
        rules: read.rules,
        nodes: read.nodes * NODE_WORDS,
        pool: read.pool,
    })
}

// What a compile of the list `rules` goes on from, by what was taken of the part file: the part's words, which stand in
// front of `nodes` and `pool`; or why it begins anew. Nothing is written.
pub fn goes_on(
    begun: Result<Begun, Refusal>,
    rules: &[u32],
    nodes: &[u32],
    pool: &[u32],
) -> Result<Begun, Refusal>
    ensures { result ≡ goes_on begun rules.now nodes.now pool.now }
{
    let part = begun?;
    let a = part.nodes.min(nodes.len());
    let b = part.pool.min(pool.len());
    judged(rules, part.rules, &nodes[..a], &pool[..b])
}

// The same of a part's words: the part check decides.
fn judged(rules: &[u32], count: usize, nodes: &[u32], pool: &[u32]) -> Result<Begun, Refusal>
    ensures { result ≡ begun_by (so_far_verdict rules.now count nodes.now pool.now)
        count (length nodes.now) (length pool.now) }
{
    // The refusal is named, and not handed on by `?`, so that a wrong one can be tried in its place.
    if let Err(why) = part_check(rules, count, nodes, pool) {
        return Err(why);
    }
    Ok(Begun {
        rules: count,
        nodes: nodes.len(),
        pool: pool.len(),
    })
}
