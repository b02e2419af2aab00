// The C functions of the library, by the names that include/wickorchard.h declares: each calls the function of the same
// name in exports, and promises the same. A static library holds them, since no crate can stand on one. Rests on
// exports.
#![tactic(auto)]

ghost use Rattle.exports.specs.Calls.{AclWriteAnswered, BuildAnswered, BuildOnAnswered, BuildSomeAnswered};
ghost use Rattle.exports.specs.Calls.{LineAllAnswered, LineFirstAnswered, PartReadAnswered, PartWriteAnswered};
ghost use Rattle.exports.specs.Calls.{RuleCheckAnswered, RuleMissesAnswered, RulesReadAnswered, RulesWriteAnswered};
ghost use Rattle.exports.specs.Calls.{ScanAllAnswered, ScanFirstAnswered, TreeAllAnswered, TreeCheckAnswered};
ghost use Rattle.exports.specs.Calls.{TreeFirstAnswered, TreeReadAnswered, TreeWriteAnswered};

// The value: the number of rules.
#[unsafe(no_mangle)]
pub extern "C" fn wick_rule_check(rules: &[u32], answer: &mut [u64; 8])
    ensures { RuleCheckAnswered rules.now answer.new }
{
    exports::line::wick_rule_check(rules, answer)
}

// The value: how many numbers were written to `out`.
#[unsafe(no_mangle)]
pub extern "C" fn wick_line_all(
    rules: &[u32],
    header: &[u32],
    out: &mut [u32],
    answer: &mut [u64; 8],
)
    ensures { LineAllAnswered rules.now header.now out.old out.new
        answer.new }
{
    exports::line::wick_line_all(rules, header, out, answer)
}

// The values: the lowest number that matches and one more, or 0; and fourth the action of its rule, or 0.
#[unsafe(no_mangle)]
pub extern "C" fn wick_line_first(rules: &[u32], header: &[u32], answer: &mut [u64; 8])
    ensures { LineFirstAnswered rules.now header.now answer.new }
{
    exports::line::wick_line_first(rules, header, answer)
}

// The value: how many numbers were written to `out`.
#[unsafe(no_mangle)]
pub extern "C" fn wick_scan_all(
    rules: &[u32],
    header: &[u32],
    out: &mut [u32],
    answer: &mut [u64; 8],
)
    ensures { ScanAllAnswered rules.now header.now out.old out.new
        answer.new }
{
    exports::line::wick_scan_all(rules, header, out, answer)
}

// The values: the lowest number that matches and one more, or 0; and fourth the action of its rule, or 0.
#[unsafe(no_mangle)]
pub extern "C" fn wick_scan_first(rules: &[u32], header: &[u32], answer: &mut [u64; 8])
    ensures { ScanFirstAnswered rules.now header.now answer.new }
{
    exports::line::wick_scan_first(rules, header, answer)
}

// The value: the lowest field of rule `number` that disagrees with the header, or 5 where the rule matches.
#[unsafe(no_mangle)]
pub extern "C" fn wick_rule_misses(
    rules: &[u32],
    header: &[u32],
    number: u64,
    answer: &mut [u64; 8],
)
    ensures { RuleMissesAnswered rules.now header.now number answer.new }
{
    exports::line::wick_rule_misses(rules, header, number, answer)
}

// The values: how many numbers were written to `out`, the nodes visited, the entries compared.
#[unsafe(no_mangle)]
pub extern "C" fn wick_tree_all(
    rules: &[u32],
    nodes: &[u32],
    pool: &[u32],
    header: &[u32],
    out: &mut [u32],
    answer: &mut [u64; 8],
)
    ensures { TreeAllAnswered rules.now nodes.now pool.now header.now
        out.old out.new answer.new }
{
    exports::tree::wick_tree_all(rules, nodes, pool, header, out, answer)
}

// The values: the number of the first entry that matches and one more, or 0; the nodes visited, the entries compared;
// the action of its rule, or 0.
#[unsafe(no_mangle)]
pub extern "C" fn wick_tree_first(
    rules: &[u32],
    nodes: &[u32],
    pool: &[u32],
    header: &[u32],
    answer: &mut [u64; 8],
)
    ensures { TreeFirstAnswered rules.now nodes.now pool.now
        header.now answer.new }
{
    exports::tree::wick_tree_first(rules, nodes, pool, header, answer)
}

// The values: the most cuts above a leaf, and the longest leaf.
#[unsafe(no_mangle)]
pub extern "C" fn wick_tree_check(rules: &[u32], nodes: &[u32], pool: &[u32], answer: &mut [u64; 8])
    ensures { TreeCheckAnswered rules.now nodes.now pool.now
        answer.new }
{
    exports::tree::wick_tree_check(rules, nodes, pool, answer)
}

// The value: the bytes that were written to `text`.
#[unsafe(no_mangle)]
pub extern "C" fn wick_rules_write(rules: &[u32], text: &mut [u8], answer: &mut [u64; 8])
    ensures { RulesWriteAnswered rules.now text.old text.new
        answer.new }
{
    exports::rule_text::wick_rules_write(rules, text, answer)
}

// The value: the bytes that were written to `text`.
#[unsafe(no_mangle)]
pub extern "C" fn wick_acl_write(rules: &[u32], text: &mut [u8], answer: &mut [u64; 8])
    ensures { AclWriteAnswered rules.now text.old text.new
        answer.new }
{
    exports::rule_text::wick_acl_write(rules, text, answer)
}

// The values: the number of rules, whose words were written to `rules`; and 1 for an `acl` file, or 0 for a `rules`
// file.
#[unsafe(no_mangle)]
pub extern "C" fn wick_rules_read(text: &[u8], rules: &mut [u32], answer: &mut [u64; 8])
    ensures { RulesReadAnswered text.now rules.old rules.new
        answer.new }
{
    exports::rule_text::wick_rules_read(text, rules, answer)
}

// The value: the bytes that were written to `text`. The tree is for `rules` rules.
#[unsafe(no_mangle)]
pub extern "C" fn wick_tree_write(
    rules: u64,
    nodes: &[u32],
    pool: &[u32],
    text: &mut [u8],
    answer: &mut [u64; 8],
)
    ensures { TreeWriteAnswered rules nodes.now pool.now text.old
        text.new answer.new }
{
    exports::tree_text::wick_tree_write(rules, nodes, pool, text, answer)
}

// The values: the numbers of rules, nodes and pool words; the last two were written to `nodes` and `pool`.
#[unsafe(no_mangle)]
pub extern "C" fn wick_tree_read(
    text: &[u8],
    nodes: &mut [u32],
    pool: &mut [u32],
    answer: &mut [u64; 8],
)
    ensures { TreeReadAnswered text.now nodes.old pool.old nodes.new
        pool.new answer.new }
{
    exports::tree_text::wick_tree_read(text, nodes, pool, answer)
}

// The value: the bytes that were written to `text`. The part is for `rules` rules.
#[unsafe(no_mangle)]
pub extern "C" fn wick_part_write(
    rules: u64,
    nodes: &[u32],
    pool: &[u32],
    text: &mut [u8],
    answer: &mut [u64; 8],
)
    ensures { PartWriteAnswered rules nodes.now pool.now text.old
        text.new answer.new }
{
    exports::tree_text::wick_part_write(rules, nodes, pool, text, answer)
}

// The values: the numbers of rules, nodes and pool words; the last two were written to `nodes` and `pool`.
#[unsafe(no_mangle)]
pub extern "C" fn wick_part_read(
    text: &[u8],
    nodes: &mut [u32],
    pool: &mut [u32],
    answer: &mut [u64; 8],
)
    ensures { PartReadAnswered text.now nodes.old pool.old nodes.new
        pool.new answer.new }
{
    exports::tree_text::wick_part_read(text, nodes, pool, answer)
}

// The values: the numbers of nodes and pool words, which were written to `nodes` and `pool`.
#[unsafe(no_mangle)]
pub extern "C" fn wick_build(
    rules: &[u32],
    nodes: &mut [u32],
    pool: &mut [u32],
    answer: &mut [u64; 8],
)
    ensures { BuildAnswered rules.now nodes.old pool.old nodes.new
        pool.new answer.new }
{
    exports::compiler::wick_build(rules, nodes, pool, answer)
}

// The values: the numbers of nodes and pool words, which were written to `nodes` and `pool`; and 1 where the tree is
// whole, else 0.
#[unsafe(no_mangle)]
pub extern "C" fn wick_build_some(
    rules: &[u32],
    most: u64,
    nodes: &mut [u32],
    pool: &mut [u32],
    answer: &mut [u64; 8],
)
    ensures { BuildSomeAnswered rules.now most nodes.old pool.old
        nodes.new pool.new answer.new }
{
    exports::compiler::wick_build_some(rules, most, nodes, pool, answer)
}

// The same values. The part was made for `count` rules.
#[unsafe(no_mangle)]
pub extern "C" fn wick_build_on(
    rules: &[u32],
    count: u64,
    part: &[u32],
    kept: &[u32],
    most: u64,
    nodes: &mut [u32],
    pool: &mut [u32],
    answer: &mut [u64; 8],
)
    ensures { BuildOnAnswered rules.now count part.now kept.now most
        nodes.old pool.old nodes.new pool.new answer.new }
{
    exports::compiler::wick_build_on(rules, count, part, kept, most, nodes, pool, answer)
}
