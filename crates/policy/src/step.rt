// One step of a compile: the text of the tree where it is whole by then, else of the part that stands by then.
ghost use Rattle.std.specs.Prelude.{Ok};
ghost use Rattle.policy.specs.Steps.{StepWithin, StepSaid, SomeWritten, OnWritten};

use builder::step::{Step, build_on, build_some};
use refusals::Refusal;
use rules::words::RULE_WORDS;
use tree_file::write::{part_write, tree_write};
use trees::words::{MOST_NODES, MOST_POOL, NODE_WORDS};

// The text of the first `most` nodes of the tree of a list, from the front of `out` on; the rest of `out` is as found.
// A refusal writes nothing.
pub fn some_text(rules: &[u32], most: usize, out: &mut [u8]) -> Result<usize, Refusal>
    ensures { SomeWritten rules.now most out.old result out.new }
{
    let mut nodes = [0u32; MOST_NODES * NODE_WORDS];
    let mut pool = [0u32; MOST_POOL];
    let step = build_some(rules, most, &mut nodes, &mut pool)?;
    step_text(rules.len() / RULE_WORDS, step, &nodes, &pool, out)
}

// The same of `most` nodes more than a part has, which was made for `count` rules.
pub fn on_text(
    rules: &[u32],
    count: usize,
    part: &[u32],
    kept: &[u32],
    most: usize,
    out: &mut [u8],
) -> Result<usize, Refusal>
    ensures { OnWritten rules.now count part.now kept.now most
        out.old result out.new }
{
    let mut nodes = [0u32; MOST_NODES * NODE_WORDS];
    let mut pool = [0u32; MOST_POOL];
    let step = build_on(rules, count, part, kept, most, &mut nodes, &mut pool)?;
    step_text(rules.len() / RULE_WORDS, step, &nodes, &pool, out)
}

// The text of what a step left in front of `nodes` and `pool`, for `count` rules.
fn step_text(
    count: usize,
    step: Step,
    nodes: &[u32],
    pool: &[u32],
    out: &mut [u8],
) -> Result<usize, Refusal>
    requires { StepWithin (Ok step) nodes.now pool.now }
    ensures { StepSaid count (Ok step) nodes.now pool.now out.old result
        out.new }
{
    match step {
        Step::Whole { nodes: k, pool: p } => {
            let n = k * NODE_WORDS;
            tree_write(count, &nodes[..n], &pool[..p], out)
        }
        Step::Stopped { nodes: j, pool: q } => {
            let m = j * NODE_WORDS;
            part_write(count, &nodes[..m], &pool[..q], out)
        }
    }
}
