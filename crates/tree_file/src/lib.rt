// The tree file: nodes and pool as text. Its lines are `tree` with the numbers of rules, nodes and pool words; a `cut`
// or a `leaf` for each node; and `end` with the number of lines before it. The part file, of a tree whose compile was
// stopped, is the same with `part` for `tree`: one reader and one writer take the word, and each call gives its own.
//   write::tree_write, write::part_write    the file of a tree, into lent bytes: 1, 5, 6, 7, 4
//   read::tree_read, read::part_read        the tree of a file, into lent node words and a lent pool: 9, 10, 4
// A file that reads well is the one that is written of what it says, and what is written reads back. No text reads well
// as both: it is refused with 9 at line 1 by the other reader. Rests on facts, lent, refusals, fields, rules, trees and
// text.
#![tactic(auto)]

pub mod node;
pub mod read;
pub mod words;
pub mod write;
