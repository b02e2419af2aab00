// The tree search and the tree check for C.
ghost use Rattle.std.specs.Prelude.{◌≡◌};
ghost use Rattle.trees.specs.TreeAll as listed;
ghost use Rattle.trees.specs.TreeFirst as first;
ghost use Rattle.tree_check.specs.TreeCheck as checked;
ghost use Rattle.exports.specs.Answers.{plainly, counts_last, first_in_words, as_eight};
ghost use Rattle.exports.specs.Calls.{TreeAllAnswered, TreeFirstAnswered, TreeCheckAnswered};

use crate::answer::{in_two, of_refusal};
use refusals::Refusal;
use tree_check::check::Figures;
use trees::search::{First, Listed};

// The values: how many numbers were written to `out`, the nodes visited, the entries compared.
pub fn wick_tree_all(
    rules: &[u32],
    nodes: &[u32],
    pool: &[u32],
    header: &[u32],
    out: &mut [u32],
    answer: &mut [u64; 8],
)
    ensures { TreeAllAnswered rules.now nodes.now pool.now header.now
        out.old out.new answer.new }
{
    *answer = of_listed(trees::search::tree_all(rules, nodes, pool, header, out));
}

// The values: the number of the first entry that matches and one more, or 0; the nodes visited, the entries compared;
// the action of its rule, or 0.
pub fn wick_tree_first(
    rules: &[u32],
    nodes: &[u32],
    pool: &[u32],
    header: &[u32],
    answer: &mut [u64; 8],
)
    ensures { TreeFirstAnswered rules.now nodes.now pool.now
        header.now answer.new }
{
    *answer = of_first(trees::search::tree_first(rules, nodes, pool, header));
}

// The values: the most cuts above a leaf, and the longest leaf.
pub fn wick_tree_check(rules: &[u32], nodes: &[u32], pool: &[u32], answer: &mut [u64; 8])
    ensures { TreeCheckAnswered rules.now nodes.now pool.now
        answer.new }
{
    *answer = of_checked(tree_check::check::tree_check(rules, nodes, pool));
}

fn of_listed(said: Result<Listed, Refusal>) -> [u64; 8]
    ensures { result ≡ as_eight counts_last (listed.paper said) }
{
    match said {
        Err(why) => of_refusal(why),
        Ok(
            Listed {
                count,
                visited,
                compared,
            },
        ) => [0, 0, 0, count as u64, visited as u64, compared as u64, 0, 0],
    }
}

fn of_first(said: Result<First, Refusal>) -> [u64; 8]
    ensures { result ≡ as_eight first_in_words (first.paper said) }
{
    match said {
        Err(why) => of_refusal(why),
        Ok(
            First {
                hit,
                visited,
                compared,
            },
        ) => {
            let (rule, action) = in_two(hit);
            [0, 0, 0, rule, visited as u64, compared as u64, action, 0]
        }
    }
}

fn of_checked(said: Result<Figures, Refusal>) -> [u64; 8]
    ensures { result ≡ as_eight plainly (checked.paper said) }
{
    match said {
        Err(why) => of_refusal(why),
        Ok(Figures { cuts, longest }) => [0, 0, 0, cuts as u64, longest as u64, 0, 0, 0],
    }
}
