// The compiler of lists into trees: HyperSplit with balanced segments, fixed so that one list gives one tree.
//   build::build         the tree of a list, into lent node words and pool words: 1, 2, 11, 4
//   step::build_some     so many of its nodes: 1, 2, 11, 4
//   step::build_on       so many nodes more, from a part: 1, 2, 11, 5, 6, 7, 8, 4
// They take any words. The modules, lowest first:
//   boxes     the boxes of the rules as words, and which of them meet a box
//   sort      numbers sorted, each once
//   choice    what a node is: a leaf, or a cut, and where it is cut
//   grow      the recursion: a node, its left part, its right part
//   root      the tree of a list from its root, grown and then stored
// Rests on facts, lent, refusals, fields, rules, trees, tree_check and built.
#![tactic(auto)]

pub mod boxes;
pub mod build;
pub mod choice;
pub mod grow;
pub mod root;
pub mod sort;
pub mod step;
