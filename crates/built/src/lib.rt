// The tree of a list, as a value: boxes by number, cut values, the cut that is chosen, the tree, its words in preorder,
// and whether they fit. Definitions and laws, no code. The laws: these words are well spelt, the tree check accepts
// them for the list, and refusal 4 names the first node that does not fit.
// Rests on facts, refusals, fields, rules, trees and tree_check.
#![tactic(auto)]
