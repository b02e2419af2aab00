// What the C functions do, for programs in other languages: the crate exports_c gives each to C under its name, and
// include/wickorchard.h declares them. To C a slice is a pointer and a length. Each call writes all eight words of
// `answer`: number (0 on success), place, extra, then the call's values; what is not used is 0. Rests on all libraries.
//   line::wick_rule_check, line::wick_line_all, line::wick_line_first, line::wick_scan_all, line::wick_scan_first,
//   line::wick_rule_misses
//   tree::wick_tree_all, tree::wick_tree_first, tree::wick_tree_check
//   rule_text::wick_rules_write, rule_text::wick_acl_write, rule_text::wick_rules_read
//   tree_text::wick_tree_write, tree_text::wick_tree_read, tree_text::wick_part_write, tree_text::wick_part_read
//   compiler::wick_build, compiler::wick_build_some, compiler::wick_build_on
#![tactic(auto)]

pub mod answer;
pub mod compiler;
pub mod line;
pub mod rule_text;
pub mod tree;
pub mod tree_text;
