// The files: each reader and writer, and the line that says its answer.
use crate::say::{answer, begin, end, word};
use refusals::Refusal;
use rule_file::kind::Kind;
use rule_file::read::rules_read;
use rule_file::write::{acl_write, rules_write};
use std::rt::Stdout;
use tree_file::read::tree_read;
use tree_file::write::tree_write;

// The number of rules of a text, and `acl` where it has actions.
pub(crate) fn read_list(to: Stdout, example: &[u8], text: &[u8], list: &mut [u32]) {
    begin(to, example, b"rules_read");
    let said = rules_read(text, list);
    answer(to, said.map(|read| [read.rules]));
    if said.is_ok_and(|read| read.kind == Kind::Acl) {
        word(to, b"acl");
    }
    end(to);
}

// The bytes of a list's text without actions.
pub(crate) fn write_list(to: Stdout, example: &[u8], list: &[u32], text: &mut [u8]) {
    begin(to, example, b"rules_write");
    say_written(to, rules_write(list, text));
}

// The bytes of its text with them.
pub(crate) fn write_actions(to: Stdout, example: &[u8], list: &[u32], text: &mut [u8]) {
    begin(to, example, b"acl_write");
    say_written(to, acl_write(list, text));
}

// The numbers of rules, nodes and pool words of a text.
pub(crate) fn read_nodes(
    to: Stdout,
    example: &[u8],
    text: &[u8],
    nodes: &mut [u32],
    pool: &mut [u32],
) {
    begin(to, example, b"tree_read");
    answer(
        to,
        tree_read(text, nodes, pool).map(|tree| [tree.rules, tree.nodes, tree.pool]),
    );
    end(to);
}

// The bytes of the text of a tree for `rules` rules.
pub(crate) fn write_nodes(
    to: Stdout,
    example: &[u8],
    rules: usize,
    nodes: &[u32],
    pool: &[u32],
    text: &mut [u8],
) {
    begin(to, example, b"tree_write");
    say_written(to, tree_write(rules, nodes, pool, text));
}

fn say_written(to: Stdout, said: Result<usize, Refusal>) {
    answer(to, said.map(|count| [count]));
    end(to);
}
