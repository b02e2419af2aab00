// The worked policy: its headers, its tree and its files.
use crate::calls::{
    AS_FOUND, check_list, check_tree, say_listed, say_tree_listed, search_list, search_tree,
};
use crate::files::{read_list, read_nodes, write_list, write_nodes};
use crate::policy::{NODES, POOL, RULES, header, web};
use crate::say::bytes;
use rules::line::line_all;
use std::rt::Stdout;
use trees::search::tree_all;

// The headers of the policy, by the list and by the tree.
pub(crate) fn headers(to: Stdout) {
    search(to, b"10.1.2.3 port 80 protocol 6", &web(0x0a010203));
    search(to, b"10.2.0.1 port 80 protocol 6", &web(0x0a020001));
    search(
        to,
        b"10.1.2.3 port 443 protocol 6",
        &header(0x0a010203, 443, 6),
    );
    search(
        to,
        b"10.1.2.3 port 80 protocol 17",
        &header(0x0a010203, 80, 17),
    );
    search(to, b"9.255.255.255 port 80 protocol 6", &web(0x09ffffff));
    search(to, b"10.255.255.255 port 80 protocol 6", &web(0x0affffff));
    search(to, b"11.0.0.0 port 80 protocol 6", &web(0x0b000000));
}

// Headers without a destination port, and without any.
pub(crate) fn absent_ports(to: Stdout) {
    search(
        to,
        b"10.1.2.3 without a destination port",
        &header(0x0a010203, 65536, 6),
    );
    search(
        to,
        b"10.1.2.3 without ports",
        &[0x0a010203, 0xc0a80001, 65536, 65536, 6],
    );
}

// Headers that are not legal.
pub(crate) fn refused_headers(to: Stdout) {
    search(to, b"protocol 256", &header(0x0a010203, 80, 256));
    search(to, b"port 65537", &header(0x0a010203, 65537, 6));
    search(
        to,
        b"a header of four words",
        &[0x0a010203, 0xc0a80001, 40000, 80],
    );
    search(
        to,
        b"a header of six words",
        &[0x0a010203, 0xc0a80001, 40000, 80, 6, 0],
    );
}

fn search(to: Stdout, example: &[u8], words: &[u32]) {
    search_list(to, example, &RULES, words);
    search_tree(to, example, &RULES, &NODES, &POOL, words);
}

// Room for two numbers, where three match.
pub(crate) fn short_room(to: Stdout) {
    let words = web(0x0a010203);
    let mut out = [AS_FOUND; 3];
    let listed = line_all(&RULES, &words, &mut out[..2]);
    say_listed(to, b"room for 2 where 3 match", b"line_all", listed, out);
    let mut found = [AS_FOUND; 3];
    let said = tree_all(&RULES, &NODES, &POOL, &words, &mut found[..2]);
    say_tree_listed(to, b"room for 2 where 3 match", said, found);
}

// The tree, and trees that are not accepted for the list.
pub(crate) fn checks(to: Stdout) {
    check_list(to, b"the worked list", &RULES);
    check_tree(to, b"the worked tree", &RULES, &NODES, &POOL);
    let lacking = [0, 167772159, 2, 5, 0, 1, 0, 184549375, 4, 5, 1, 2, 5, 3, 1];
    check_tree(
        to,
        b"entry 1 taken from node 3",
        &RULES,
        &lacking,
        &[2, 0, 2, 2],
    );
    let empty = [0, 167772159, 2, 5, 0, 1, 0, 167772159, 4, 5, 1, 3, 5, 4, 1];
    check_tree(to, b"node 2 cuts off nothing", &RULES, &empty, &POOL);
    check_tree(to, b"no rules, one leaf of count 0", &[], &[5, 0, 0], &[]);
}

// The list's file, written with exact room, and read.
pub(crate) fn rule_files(to: Stdout) {
    let mut text = [0u8; 157];
    write_list(to, b"the list's file", &RULES, &mut text);
    bytes(to, &text);
    let mut list = [0u32; 33];
    read_list(to, b"the list's file", &text, &mut list);
    search_list(to, b"the list that was read", &list, &web(0x0a010203));
    short_rule_files(to, text);
}

// The list's file with too little room, without its last newline, and no text at all.
fn short_rule_files(to: Stdout, text: [u8; 157]) {
    let mut bytes = [0u8; 156];
    write_list(
        to,
        b"the list's file, room for one byte less",
        &RULES,
        &mut bytes,
    );
    let mut words = [0u32; 32];
    read_list(
        to,
        b"the list's file, room for one word less",
        &text,
        &mut words,
    );
    let mut list = [0u32; 33];
    read_list(
        to,
        b"the list's file without the last newline",
        &text[0..156],
        &mut list,
    );
    read_list(to, b"no text", &[], &mut []);
}

// The tree's file, written with exact room, and read.
pub(crate) fn tree_files(to: Stdout) {
    let mut text = [0u8; 94];
    write_nodes(to, b"the tree's file", 3, &NODES, &POOL, &mut text);
    bytes(to, &text);
    let mut nodes = [0u32; 15];
    let mut pool = [0u32; 5];
    read_nodes(to, b"the tree's file", &text, &mut nodes, &mut pool);
    check_tree(to, b"the tree that was read", &RULES, &nodes, &pool);
    short_tree_files(to, text);
}

// The tree's file with too little room, and without its last newline.
fn short_tree_files(to: Stdout, text: [u8; 94]) {
    let mut bytes = [0u8; 93];
    write_nodes(
        to,
        b"the tree's file, room for one byte less",
        3,
        &NODES,
        &POOL,
        &mut bytes,
    );
    read_nodes(
        to,
        b"the tree's file, room for one node word less",
        &text,
        &mut [0; 14],
        &mut [0; 5],
    );
    read_nodes(
        to,
        b"the tree's file, room for one pool word less",
        &text,
        &mut [0; 15],
        &mut [0; 4],
    );
    read_nodes(
        to,
        b"the tree's file without the last newline",
        &text[0..93],
        &mut [0; 15],
        &mut [0; 5],
    );
}
