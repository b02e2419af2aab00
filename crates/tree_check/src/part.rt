// The part check: the list, the sizes, the number of rules, the words node by node, and then the nodes so far.
ghost use Rattle.std.specs.Prelude.{◌≡◌};
ghost use Rattle.tree_check.specs.PartCheck.{so_far_verdict};

use crate::check::{MOST_CUTS, end_verdict, list_and_sizes};
use crate::preorder::part_of;
use fields::bounds::root_box;
use refusals::Refusal;
use rules::words::RULE_WORDS;
use trees::spelt::spelt_verdict;
use trees::words::NODE_WORDS;

// Whether a compile may go on from a part that was made for `count` rules. Nothing is written.
pub fn part_check(rules: &[u32], count: usize, nodes: &[u32], pool: &[u32]) -> Result<(), Refusal>
    ensures { result ≡ so_far_verdict rules.now count nodes.now pool.now }
{
    list_and_sizes(rules, nodes, pool)?;
    if count != rules.len() / RULE_WORDS {
        return Err(Refusal::NodeWrong { node: 0 });
    }
    spelt_verdict(count, nodes, pool)?;
    let part = part_of(rules, nodes, pool, 0, root_box(), MOST_CUTS, true)?;
    end_verdict(part.next, part.lack, nodes.len() / NODE_WORDS)
}
