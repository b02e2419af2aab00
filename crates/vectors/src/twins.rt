// Rules with the words of an earlier one, in lists and in files.
use crate::calls::{check_list, check_tree, scan_list, search_list, search_tree};
use crate::files::{read_list, write_list};
use std::rt::Stdout;

// Rules of zeros, of which some have 1 for their highest protocol.
pub(crate) fn lists(to: Stdout) {
    let mut list = [0u32; 44];
    list[20] = 1;
    check_list(to, b"two rules that differ in one word", &list[..22]);
    check_list(to, b"the first rule once more", &list[..33]);
    list[31] = 1;
    check_list(to, b"the second rule once more, then the first", &list);
    check_list(to, b"three rules alike", &[0; 33]);
    search_list(to, b"twins", &[0; 22], &[0; 5]);
    check_tree(to, b"twins", &[0; 22], &[5, 0, 2], &[0, 1]);
}

// The scans and the tree searches judge no list.
pub(crate) fn unjudged_lists(to: Stdout) {
    scan_list(to, b"twins", &[0; 22], &[0; 5]);
    search_tree(to, b"twins", &[0; 22], &[5, 0, 2], &[0, 1], &[0; 5]);
}

// A file of two rules. Its byte 84 is the highest protocol of rule 1: with 0 there, the rules are twins.
pub(crate) fn rule_files(to: Stdout) {
    let mut list = [0u32; 22];
    list[20] = 1;
    let mut text = [0u8; 92];
    write_list(to, b"two rules that differ in one word", &list, &mut text);
    read_list(to, b"two rules that differ in one word", &text, &mut list);
    text[84] = b'0';
    twin_files(to, text);
}

// The file with twins: whole, with too little room, and without its last newline.
fn twin_files(to: Stdout, text: [u8; 92]) {
    read_list(to, b"twins", &text, &mut [0; 22]);
    read_list(to, b"twins, room for no word", &text, &mut []);
    read_list(
        to,
        b"twins without the last newline",
        &text[0..91],
        &mut [0; 22],
    );
    write_list(to, b"twins", &[0; 22], &mut [0; 92]);
}
