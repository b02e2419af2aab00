// Nodes and pool: their words, *spelt*, the walk of a header, and the tree search with its counts.
//   search::tree_all         every number of the reached leaf that matches, into lent words: 3, 6, 7, 4
//   search::tree_first       the first of them: 3, 6, 7
//   spelt::size_verdict      whether there are nodes, and not too many words: 5
//   spelt::spelt_verdict     whether the words are spelt, for a number of rules: 6, 7
//   words::node_at           a node by its words
//   words::store_node        the words of a node, into lent words
// Each takes any words: the tree search does not repeat the tree check. Rests on facts, lent, refusals, fields and
// rules.
#![tactic(auto)]

pub mod search;
pub mod spelt;
pub mod walk;
pub mod words;
