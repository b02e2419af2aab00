// The build in steps: so many nodes at a time. What a step leaves is a part, from which another step goes on.
ghost use Rattle.std.specs.Prelude.{Ok, ◌≡◌};
ghost use Rattle.builder.specs.Build.{SomeBuilt, OnBuilt};
ghost use Rattle.builder.specs.BuildSteps.{end_of};
ghost use Rattle.builder.specs.Answers.{step_of};

use crate::build::MOST_END;
use crate::grow::Grown;
use crate::root::grow_list;
use refusals::Refusal;
use rules::check::list_verdict;
use tree_check::part::part_check;
use trees::words::NODE_WORDS;

// What a step comes to: the whole tree, or a part of it.
#[derive(Clone, Copy)]
pub enum Step {
    Whole { nodes: usize, pool: usize },
    Stopped { nodes: usize, pool: usize },
}

// The first `most` nodes of the tree of a list, as `build` leaves them, but a right child that is not among them is 0.
pub fn build_some(
    rules: &[u32],
    most: usize,
    nodes: &mut [u32],
    pool: &mut [u32],
) -> Result<Step, Refusal>
    ensures { SomeBuilt rules.now most nodes.old pool.old result
        nodes.new pool.new }
{
    list_verdict(rules)?;
    let end = end_of(0, most);
    let grown = grow_list(rules, &rules[..0], &rules[..0], end, nodes, pool)?;
    Ok(step_of(grown))
}

// `most` nodes more of the tree that is grown from a part which was made for `count` rules: the part's own nodes, and
// each part of it that is not begun grown as `build` grows it. All words are given anew, from the front on.
pub fn build_on(
    rules: &[u32],
    count: usize,
    part: &[u32],
    kept: &[u32],
    most: usize,
    nodes: &mut [u32],
    pool: &mut [u32],
) -> Result<Step, Refusal>
    ensures { OnBuilt rules.now count part.now kept.now most
        nodes.old pool.old result nodes.new pool.new }
{
    part_check(rules, count, part, kept)?;
    let end = end_of(part.len() / NODE_WORDS, most);
    let grown = grow_list(rules, part, kept, end, nodes, pool)?;
    Ok(step_of(grown))
}

// Where a step stops that begins with `count` nodes: `most` nodes on, and at least one.
fn end_of(count: usize, most: usize) -> usize
    ensures { result ≡ end_of count most }
{
    count.saturating_add(most.max(1)).min(MOST_END)
}

// The answer for a tree that is grown up to an end.
fn step_of(grown: Grown) -> Step
    ensures { Ok result ≡ step_of (Ok grown) }
{
    let nodes = grown.next;
    let pool = grown.entries;
    if grown.goes_on {
        return Step::Stopped { nodes, pool };
    }
    Step::Whole { nodes, pool }
}
