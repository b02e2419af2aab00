// The worked policy with the actions 1, 255 and 2: what a first-match finds, and the file that has them.
use crate::calls::{check_list, check_tree, scan_list, search_list, search_tree};
use crate::files::{read_list, write_actions, write_list};
use crate::policy::{NODES, POOL, RULES, header, web};
use crate::say::bytes;
use std::rt::Stdout;

// The list and its tree.
pub(crate) fn checks(to: Stdout) {
    let list = with_actions();
    check_list(to, b"actions", &list);
    check_tree(to, b"actions", &list, &NODES, &POOL);
}

// Each rule is the first match of a header, and of two rules none is.
pub(crate) fn searches(to: Stdout) {
    search(to, b"actions, rule 0 first", &web(0x0a010203));
    search(to, b"actions, rule 1 first", &header(0x0a010203, 443, 6));
    search(to, b"actions, rule 2 first", &web(0x0b000000));
    let list = with_actions();
    search_list(to, b"actions, no rule", &list[0..22], &web(0x0b000000));
}

fn search(to: Stdout, example: &[u8], words: &[u32]) {
    let list = with_actions();
    search_list(to, example, &list, words);
    scan_list(to, example, &list, words);
    search_tree(to, example, &list, &NODES, &POOL, words);
}

fn with_actions() -> [u32; 33] {
    let mut list = RULES;
    list[10] = 1;
    list[21] = 255;
    list[32] = 2;
    list
}

// The rule that matches everything, with an action at each side of the limit, and with any word.
pub(crate) fn one_rule(to: Stdout) {
    check_list(to, b"action 255", &everything(255));
    check_list(to, b"action 256", &everything(256));
    let words = web(0x0b000000);
    let list = everything(0xffffffff);
    scan_list(to, b"an action of 32 bits", &list, &words);
    search_tree(to, b"an action of 32 bits", &list, &[5, 0, 1], &[0], &words);
    check_list(
        to,
        b"twins but for the action",
        &[
            0, 0, 0, 0, 0, 65535, 0, 65535, 0, 255, 1, 0, 0, 0, 0, 0, 65535, 0, 65535, 0, 255, 2,
        ],
    );
}

fn everything(action: u32) -> [u32; 11] {
    [0, 0, 0, 0, 0, 65535, 0, 65535, 0, 255, action]
}

// The file with actions, written with exact room, and read.
pub(crate) fn rule_files(to: Stdout) {
    let mut text = [0u8; 163];
    write_actions(to, b"the file with actions", &with_actions(), &mut text);
    bytes(to, &text);
    let mut list = [0u32; 33];
    read_list(to, b"the file with actions", &text, &mut list);
    search_list(
        to,
        b"the list with actions that was read",
        &list,
        &web(0x0a010203),
    );
    short_files(to, text);
    wrong_files(to, text);
}

// The file with too little room, and without its last newline.
fn short_files(to: Stdout, text: [u8; 163]) {
    write_actions(
        to,
        b"the file with actions, room for one byte less",
        &with_actions(),
        &mut [0; 162],
    );
    read_list(
        to,
        b"the file with actions, room for one word less",
        &text,
        &mut [0; 32],
    );
    read_list(
        to,
        b"the file with actions, without the last newline",
        &text[0..162],
        &mut [0; 33],
    );
    write_list(
        to,
        b"actions in a file without them",
        &with_actions(),
        &mut [0; 163],
    );
}

// An action of 256 at byte 102, a line with an action where the first word says that there is none, and no rules.
fn wrong_files(to: Stdout, mut text: [u8; 163]) {
    text[104] = b'6';
    read_list(
        to,
        b"the file with actions, an action of 256",
        &text,
        &mut [0; 33],
    );
    read_list(
        to,
        b"an action in a file without them",
        b"rules\t1\nrule\t0\t0.0.0.0/0\t0.0.0.0/0\t0\t65535\t0\t65535\t0\t255\t1\nend\t2\n",
        &mut [0; 11],
    );
    let mut empty = [0u8; 12];
    write_actions(to, b"no rules, with actions", &[], &mut empty);
    read_list(to, b"no rules, with actions", &empty, &mut []);
}
