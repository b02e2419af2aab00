// The rule file: a list of rules as lines of text. The first line has the number of rules, each rule has a line, and
// the end line has the number of lines before it. There are two kinds: a file that begins `rules` has no actions, and
// one that begins `acl` has the action of each rule last on its line.
//   write::rules_write    a list whose actions are 0 as text, into lent bytes: 1, 2, 11, 4; gives the bytes
//   write::acl_write      the same of a list with any actions
//   read::rules_read      the list that a text of either kind holds, into lent words: 9, 10, 11, 4; gives the number of
//                         rules and the kind
//   piece::put_words      what a rule's line says of one field, as far as there is room
// Each takes any words and any bytes, and a refusal writes nothing. What is written reads back as the same words and
// kind, and a text that reads well is the one that its kind's writer writes of its words. Rests on facts, lent,
// refusals, fields, rules and text.
#![tactic(auto)]

pub mod kind;
pub mod piece;
pub mod read;
mod record;
pub mod write;
