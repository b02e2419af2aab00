// What a list is compiled into: the text of its tree, for the program `compile`.
ghost use Rattle.policy.specs.Compiled.{TextCompiled};

use builder::build::build;
use refusals::Refusal;
use rules::words::RULE_WORDS;
use tree_file::write::tree_write;
use trees::words::{MOST_NODES, MOST_POOL, NODE_WORDS};

// The text of the tree of a list, from the front of `out` on; the rest of `out` is as found. A refusal writes nothing.
// The tree is built in words of its own, of which there are enough for any tree.
pub fn compile_text(rules: &[u32], out: &mut [u8]) -> Result<usize, Refusal>
    ensures { TextCompiled rules.now out.old result out.new }
{
    let mut nodes = [0u32; MOST_NODES * NODE_WORDS];
    let mut pool = [0u32; MOST_POOL];
    let built = build(rules, &mut nodes, &mut pool)?;
    let n = built.nodes * NODE_WORDS;
    let p = built.pool;
    tree_write(rules.len() / RULE_WORDS, &nodes[..n], &pool[..p], out)
}
