// The policy of two files: from the bytes of `rules.txt` and `tree.txt` to who answers. The written list is the policy;
// the tree serves only where its file reads well and the tree check accepts it for the list. And the text of the tree
// that a list is compiled into, at once or step by step.
//   list::take_list           the list of the rule file: 12, 9, 10, 11, 4
//   tree::take_tree           the tree of the tree file: 12, 9, 10, 4
//   serving::who_serves       the tree, or the list and why the tree is refused: as the file was, then 1, 2, 11, 5, 6,
//                             7, 8
//   line::verdict_line        the line of a refused list or tree: 4
//   compiled::compile_text    the text of the tree of a list: 1, 2, 11, 4
//   part::take_part           the part of the part file: 12, 9, 10, 4
//   part::goes_on             whether a compile goes on from it: as the file was, then 1, 2, 11, 5, 6, 7, 8
//   step::some_text           the text of the first nodes of the tree: 1, 2, 11, 4
//   step::on_text             the text of a part and some nodes more: 1, 2, 11, 5, 6, 7, 8, 4
//   file::MOST_FILE           the most bytes of a file that the programs read
// Each takes any words and bytes. Rests on all libraries but exports.
#![tactic(auto)]

pub mod compiled;
pub mod file;
pub mod line;
pub mod list;
pub mod part;
pub mod serving;
pub mod step;
pub mod tree;
