// The searches and the checks: each call, and the line that says its answer.
use crate::say::{answer, begin, end, refused, value, word, words};
use refusals::Refusal;
use rules::check::rule_check;
use rules::line::{Hit, line_all, line_first, scan_all, scan_first};
use rules::miss::rule_misses;
use std::rt::Stdout;
use tree_check::check::tree_check;
use trees::search::{First, Listed, tree_all, tree_first};

// What a lent word is before a call.
pub const AS_FOUND: u32 = 7;

// The number of rules.
pub(crate) fn check_list(to: Stdout, example: &[u8], list: &[u32]) {
    begin(to, example, b"rule_check");
    answer(to, rule_check(list).map(|rules| [rules]));
    end(to);
}

// The most cuts above a leaf, and the longest leaf.
pub(crate) fn check_tree(to: Stdout, example: &[u8], list: &[u32], nodes: &[u32], pool: &[u32]) {
    begin(to, example, b"tree_check");
    answer(
        to,
        tree_check(list, nodes, pool).map(|tree| [tree.cuts, tree.longest]),
    );
    end(to);
}

// Both line searches, with room for three numbers.
pub(crate) fn search_list(to: Stdout, example: &[u8], list: &[u32], header: &[u32]) {
    let mut out = [AS_FOUND; 3];
    let said = line_all(list, header, &mut out);
    say_listed(to, example, b"line_all", said, out);
    say_first(to, example, b"line_first", line_first(list, header));
}

// Both scans, with room for three numbers.
pub(crate) fn scan_list(to: Stdout, example: &[u8], list: &[u32], header: &[u32]) {
    let mut out = [AS_FOUND; 3];
    let said = scan_all(list, header, &mut out);
    say_listed(to, example, b"scan_all", said, out);
    say_first(to, example, b"scan_first", scan_first(list, header));
}

// The lowest field of a rule that disagrees, or 5 where the rule matches.
pub(crate) fn compare_rule(
    to: Stdout,
    example: &[u8],
    list: &[u32],
    header: &[u32],
    number: usize,
) {
    begin(to, example, b"rule_misses");
    answer(to, rule_misses(list, header, number).map(|field| [field]));
    end(to);
}

// The first number and its action, or none.
fn say_first(to: Stdout, example: &[u8], call: &[u8], said: Result<Option<Hit>, Refusal>) {
    begin(to, example, call);
    match said {
        Ok(hit) => say_hit(to, hit),
        Err(why) => refused(to, why),
    }
    end(to);
}

// 0 and a first match: its number, and its action where that is not 0.
fn say_hit(to: Stdout, hit: Option<Hit>) {
    value(to, 0);
    match hit {
        Some(Hit { number, action }) => {
            word(to, b"rule");
            value(to, number);
            if action != 0 {
                word(to, b"action");
                value(to, action);
            }
        }
        None => word(to, b"none"),
    }
}

// The numbers that a line search or a scan found, of which there are so many.
pub(crate) fn say_listed(
    to: Stdout,
    example: &[u8],
    call: &[u8],
    said: Result<usize, Refusal>,
    out: [u32; 3],
) {
    begin(to, example, call);
    answer(to, said.map(|count| [count]));
    words(to, &out);
    end(to);
}

// Both tree searches, with room for three numbers.
pub(crate) fn search_tree(
    to: Stdout,
    example: &[u8],
    list: &[u32],
    nodes: &[u32],
    pool: &[u32],
    header: &[u32],
) {
    let mut out = [AS_FOUND; 3];
    let said = tree_all(list, nodes, pool, header, &mut out);
    say_tree_listed(to, example, said, out);
    say_tree_first(to, example, tree_first(list, nodes, pool, header));
}

// The numbers that a tree search found, of which there are so many; the nodes visited, and the entries compared.
pub(crate) fn say_tree_listed(
    to: Stdout,
    example: &[u8],
    said: Result<Listed, Refusal>,
    out: [u32; 3],
) {
    begin(to, example, b"tree_all");
    answer(
        to,
        said.map(|found| [found.count, found.visited, found.compared]),
    );
    words(to, &out);
    end(to);
}

// The first number and its action, or none; the nodes visited, and the entries compared.
fn say_tree_first(to: Stdout, example: &[u8], said: Result<First, Refusal>) {
    begin(to, example, b"tree_first");
    match said {
        Ok(found) => {
            say_hit(to, found.hit);
            value(to, found.visited);
            value(to, found.compared);
        }
        Err(why) => refused(to, why),
    }
    end(to);
}
