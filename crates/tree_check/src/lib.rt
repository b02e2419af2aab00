// The tree check: whether a tree is well formed and answers as the list does, for every header that there can be. The
// part check: whether a compile may go on from a part, the first nodes of a tree.
//   check::tree_check    the most cuts above a leaf and the longest leaf of an accepted tree: 1, 2, 11, 5, 6, 7, 8
//   part::part_check     fine for a part that is well formed so far and lacks no rule: 1, 2, 11, 5, 6, 7, 8
// Both take any words. Rests on facts, refusals, fields, rules and trees.
#![tactic(auto)]

pub mod check;
pub mod part;
pub mod preorder;
