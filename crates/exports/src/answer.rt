// The eight words of an answer.
ghost use Rattle.std.specs.Prelude.{◌≡◌};
ghost use Rattle.refusals.specs.Paper.{on_paper, counted};
ghost use Rattle.rules.specs.LineFirst.{hit_in};
ghost use Rattle.exports.specs.Answers.{eight, plainly, as_eight, rule_in, action_in};

use refusals::Refusal;
use rules::line::Hit;

// A refusal: its number, place and extra.
pub(crate) fn of_refusal(why: Refusal) -> [u64; 8]
    ensures { result ≡ eight (on_paper why) }
{
    [
        refusals::number_of(why),
        refusals::place_of(why),
        refusals::extra_of(why),
        0,
        0,
        0,
        0,
        0,
    ]
}

// A call that finds one number: how many, or which.
pub(crate) fn of_number(said: Result<usize, Refusal>) -> [u64; 8]
    ensures { result ≡ as_eight plainly (counted said) }
{
    match said {
        Err(why) => of_refusal(why),
        Ok(number) => [0, 0, 0, number as u64, 0, 0, 0, 0],
    }
}

// A first match in two words: its number and one more, and the action; 0 and 0 for none.
pub(crate) fn in_two(hit: Option<Hit>) -> (u64, u64)
    ensures rule { result.0 ≡ rule_in (hit_in hit) }
    ensures action { result.1 ≡ action_in (hit_in hit) }
{
    match hit {
        Some(Hit { number, action }) => (u64::from(number) + 1, u64::from(action)),
        None => (0, 0),
    }
}
