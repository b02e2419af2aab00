// What is asked of headers, and what answers: the tree or the list. The list is judged here, once for all lines that a
// call is given.
ghost use Rattle.std.specs.Prelude.{◌≡◌};
ghost use Rattle.console.specs.Judged.{by_of};

use refusals::Refusal;
use rules::check::list_verdict;

// The tree, or the list.
#[derive(Clone, Copy)]
pub(crate) enum By {
    Tree,
    List,
}

// Which rules match a header, by what answers, or the refusal of the list, which answers every header; or why one rule
// misses it.
#[derive(Clone, Copy)]
pub(crate) enum Ask {
    Matches(Result<By, Refusal>),
    Misses { rule: usize },
}

// The tree if the tree check accepted it. Else the list is judged.
pub(crate) fn by_of(rules: &[u32], accepted: bool) -> Result<By, Refusal>
    ensures { result ≡ by_of accepted rules.now }
{
    if accepted {
        return Ok(By::Tree);
    }
    list_verdict(rules)?;
    Ok(By::List)
}
