// The compiler of lists into trees for C: at once, and in steps.
ghost use Rattle.std.specs.Prelude.{◌≡◌};
ghost use Rattle.builder.specs.Build as built;
ghost use Rattle.exports.specs.Answers.{plainly, as_eight};
ghost use Rattle.exports.specs.Calls.{BuildAnswered, BuildSomeAnswered, BuildOnAnswered};

use crate::answer::of_refusal;
use builder::build::Size;
use builder::step::Step;
use refusals::Refusal;

// The values: the numbers of nodes and pool words, which were written to `nodes` and `pool`.
pub fn wick_build(rules: &[u32], nodes: &mut [u32], pool: &mut [u32], answer: &mut [u64; 8])
    ensures { BuildAnswered rules.now nodes.old pool.old nodes.new
        pool.new answer.new }
{
    *answer = of_built(builder::build::build(rules, nodes, pool));
}

// The values: the numbers of nodes and pool words, which were written to `nodes` and `pool`; and 1 where the tree is
// whole, else 0.
pub fn wick_build_some(
    rules: &[u32],
    most: u64,
    nodes: &mut [u32],
    pool: &mut [u32],
    answer: &mut [u64; 8],
)
    ensures { BuildSomeAnswered rules.now most nodes.old pool.old
        nodes.new pool.new answer.new }
{
    *answer = of_step(builder::step::build_some(rules, most as usize, nodes, pool));
}

// The same values. The part was made for `count` rules.
pub fn wick_build_on(
    rules: &[u32],
    count: u64,
    part: &[u32],
    kept: &[u32],
    most: u64,
    nodes: &mut [u32],
    pool: &mut [u32],
    answer: &mut [u64; 8],
)
    ensures { BuildOnAnswered rules.now count part.now kept.now most
        nodes.old pool.old nodes.new pool.new answer.new }
{
    *answer = of_step(builder::step::build_on(
        rules,
        count as usize,
        part,
        kept,
        most as usize,
        nodes,
        pool,
    ));
}

fn of_step(said: Result<Step, Refusal>) -> [u64; 8]
    ensures { result ≡ as_eight plainly (built.step_paper said) }
{
    match said {
        Err(why) => of_refusal(why),
        Ok(Step::Whole { nodes, pool }) => [0, 0, 0, nodes as u64, pool as u64, 1, 0, 0],
        Ok(Step::Stopped { nodes, pool }) => [0, 0, 0, nodes as u64, pool as u64, 0, 0, 0],
    }
}

fn of_built(said: Result<Size, Refusal>) -> [u64; 8]
    ensures { result ≡ as_eight plainly (built.paper said) }
{
    match said {
        Err(why) => of_refusal(why),
        Ok(Size { nodes, pool }) => [0, 0, 0, nodes as u64, pool as u64, 0, 0, 0],
    }
}
