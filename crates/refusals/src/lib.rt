// Why a call was refused. `Refusal` has a variant for each refusal number of the scope, named after what is wrong; a call
// that can be refused gives it as the error of a `Result`. `number_of`, `place_of` and `extra_of` give the scope's
// numbers; they are the only code that has them. Rests on facts.
#![tactic(auto)]

ghost use Rattle.std.specs.Prelude.{◌≡◌};
ghost use Rattle.refusals.specs.Table.{number_of, place_of, extra_of};

#[derive(Clone, Copy)]
pub enum Refusal {
    RuleWordsWrong,
    RuleNotGood { rule: usize },
    HeaderWrong { field: usize },
    OutputShort { needed: usize, output: usize },
    TreeWordsWrong,
    NodeWrong { node: usize },
    LeafWrong { node: usize },
    LeafLacksRule { node: usize, rule: usize },
    LineWrong { line: usize },
    TextStops { lines: usize },
    RuleHasTwin { rule: usize, earlier: usize },
    FileNotRead,
}

// The number of a refusal, as the scope's table has it.
pub fn number_of(why: Refusal) -> u64
    ensures { result ≡ number_of why }
{
    match why {
        Refusal::RuleWordsWrong => 1,
        Refusal::RuleNotGood { rule: _ } => 2,
        Refusal::HeaderWrong { field: _ } => 3,
        Refusal::OutputShort {
            needed: _,
            output: _,
        } => 4,
        Refusal::TreeWordsWrong => 5,
        Refusal::NodeWrong { node: _ } => 6,
        Refusal::LeafWrong { node: _ } => 7,
        Refusal::LeafLacksRule { node: _, rule: _ } => 8,
        Refusal::LineWrong { line: _ } => 9,
        Refusal::TextStops { lines: _ } => 10,
        Refusal::RuleHasTwin {
            rule: _,
            earlier: _,
        } => 11,
        Refusal::FileNotRead => 12,
    }
}

// Where it is: a rule, a field, a node, a line, or how much room is needed; 0 where the table names no place.
pub fn place_of(why: Refusal) -> u64
    ensures { result ≡ place_of why }
{
    match why {
        Refusal::RuleWordsWrong => 0,
        Refusal::RuleNotGood { rule } => rule as u64,
        Refusal::HeaderWrong { field } => field as u64,
        Refusal::OutputShort { needed, output: _ } => needed as u64,
        Refusal::TreeWordsWrong => 0,
        Refusal::NodeWrong { node } => node as u64,
        Refusal::LeafWrong { node } => node as u64,
        Refusal::LeafLacksRule { node, rule: _ } => node as u64,
        Refusal::LineWrong { line } => line as u64,
        Refusal::TextStops { lines } => lines as u64,
        Refusal::RuleHasTwin { rule, earlier: _ } => rule as u64,
        Refusal::FileNotRead => 0,
    }
}

// What the table names besides: the output that is short, the rule that a leaf lacks, or the earlier of two rules with
// equal words; 0 elsewhere.
pub fn extra_of(why: Refusal) -> u64
    ensures { result ≡ extra_of why }
{
    match why {
        Refusal::RuleWordsWrong => 0,
        Refusal::RuleNotGood { rule: _ } => 0,
        Refusal::HeaderWrong { field: _ } => 0,
        Refusal::OutputShort { needed: _, output } => output as u64,
        Refusal::TreeWordsWrong => 0,
        Refusal::NodeWrong { node: _ } => 0,
        Refusal::LeafWrong { node: _ } => 0,
        Refusal::LeafLacksRule { node: _, rule } => rule as u64,
        Refusal::LineWrong { line: _ } => 0,
        Refusal::TextStops { lines: _ } => 0,
        Refusal::RuleHasTwin { rule: _, earlier } => earlier as u64,
        Refusal::FileNotRead => 0,
    }
}
