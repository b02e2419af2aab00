// A list of rules: its words, good rules, twins, matching, the line-by-line search, the ends of fields, and what
// entries lack. The written list is the policy.
//   check::rule_check     whether the list is good: 1, 2, 11; gives the number of rules
//   line::line_all        every number that matches a header, rising, into lent words: 1, 2, 11, 3, 4
//   line::line_first      the lowest number that matches a header, and its action: 1, 2, 11, 3
//   line::scan_all        as line_all, but the list is not judged: 3, 4
//   line::scan_first      as line_first, but the list is not judged: 3
//   miss::rule_misses     the lowest field of a rule that disagrees with a header, or the number of fields: 1, 2, 11,
//                         3, 2
//   check::list_verdict   what rule_check refuses, for the calls that take a list
//   check::verdict_to     the same where actions may not be over a number
//   check::rule_good      whether a rule is there and good
//   words::rule_there     whether a rule is wholly lent
//   words::action_of      the action of a rule
//   matching::rule_matches    whether a rule is there and matches a header
//   bounds::ends_of       the two ends of a field of a rule
//   lacking::lowest_lacking   the lowest rule whose box meets a box and that a list of entries lacks
// Each takes any words. Rests on facts, lent, refusals and fields.
#![tactic(auto)]

pub mod bounds;
pub mod check;
pub mod lacking;
pub mod line;
pub mod matching;
pub mod miss;
mod twins;
pub mod words;
