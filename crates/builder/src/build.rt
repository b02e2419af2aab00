// The build: a list is judged, its tree is grown, and its words are stored where all of them fit.
ghost use Rattle.builder.specs.Build.{TreeBuilt};

use crate::root::grow_list;
use refusals::Refusal;
use rules::check::list_verdict;
use trees::words::MOST_NODES;

// How many nodes a tree has, and how many words its pool.
#[derive(Clone, Copy)]
pub struct Size {
    pub nodes: usize,
    pub pool: usize,
}

// No node from here on is grown: a tree has no room for the one before it, which is refused.
pub(crate) const MOST_END: usize = MOST_NODES + 1;

// The tree of a list: its nodes from the front of `nodes` on, its entries from the front of `pool` on; what is behind
// them is as found. A refusal leaves both as found.
pub fn build(rules: &[u32], nodes: &mut [u32], pool: &mut [u32]) -> Result<Size, Refusal>
    ensures { TreeBuilt rules.now nodes.old pool.old result nodes.new
        pool.new }
{
    list_verdict(rules)?;
    let grown = grow_list(rules, &rules[..0], &rules[..0], MOST_END, nodes, pool)?;
    Ok(Size {
        nodes: grown.next,
        pool: grown.entries,
    })
}
