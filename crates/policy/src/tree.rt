// The tree of the tree file.
ghost use Rattle.policy.specs.Files.{text_in};
ghost use Rattle.policy.specs.TakeTree.{TreeTaken};

use crate::file::text_of;
use refusals::Refusal;
use tree_file::read::tree_read;
use trees::words::NODE_WORDS;

// How many words a tree's nodes have, and how many its pool.
#[derive(Clone, Copy)]
pub struct Words {
    pub nodes: usize,
    pub pool: usize,
}

// The words of the tree, from the front of `nodes` and of `pool` on; the rest of both is as found. A refusal writes
// nothing. Whether the tree may serve is for the check to say, so the text's own rule count is not looked at.
pub fn take_tree(
    file: Option<usize>,
    buffer: &[u8],
    nodes: &mut [u32],
    pool: &mut [u32],
) -> Result<Words, Refusal>
    ensures { TreeTaken (text_in file buffer.now) nodes.old pool.old result
        nodes.new pool.new }
{
    let Some(text) = text_of(file, buffer) else {
        return Err(Refusal::FileNotRead);
    };
    // The reader says how many nodes there are; each has its words.
    let read = tree_read(text, nodes, pool)?;
    Ok(Words {
        nodes: read.nodes * NODE_WORDS,
        pool: read.pool,
    })
}
