// The limits, on both sides.
ghost use Rattle.std.specs.Prelude.{◌≤◌, ◌<◌};

use crate::calls::{check_list, check_tree, scan_list, search_list, search_tree};
use crate::files::read_list;
use crate::policy::web;
use std::rt::Stdout;

// One address, 10.1.2.3/32. The trees cut it out: 167838210 is the address below it.
pub(crate) fn length_32(to: Stdout) {
    let list = [0x0a010203, 32, 0, 0, 0, 65535, 0, 65535, 0, 255, 0];
    check_list(to, b"length 32", &list);
    search_list(to, b"length 32, that address", &list, &web(0x0a010203));
    search_list(to, b"length 32, the address below", &list, &web(0x0a010202));
    search_list(to, b"length 32, the address above", &list, &web(0x0a010204));
    let nodes = [0, 167838210, 2, 5, 0, 0, 0, 167838211, 4, 5, 0, 1, 5, 1, 0];
    check_tree(to, b"length 32, a leaf of one address", &list, &nodes, &[0]);
    let lacking = [0, 167838210, 2, 5, 0, 0, 0, 167838211, 4, 5, 0, 0, 5, 0, 0];
    check_tree(to, b"length 32, lacking in that leaf", &list, &lacking, &[]);
}

// Length 0 agrees with everything.
pub(crate) fn length_0(to: Stdout) {
    let list = [0, 0, 0, 0, 0, 65535, 0, 65535, 0, 255, 0];
    check_list(to, b"length 0", &list);
    search_list(to, b"length 0, the lowest address", &list, &web(0));
    search_list(
        to,
        b"length 0, the highest address",
        &list,
        &web(0xffffffff),
    );
    check_list(
        to,
        b"length 0, a stray bit",
        &[0x80000000, 0, 0, 0, 0, 65535, 0, 65535, 0, 255, 0],
    );
    check_list(
        to,
        b"length 0 to one address",
        &[0, 0, 0xffffffff, 32, 0, 65535, 0, 65535, 0, 255, 0],
    );
}

// A length past 32, and the bit that a length of 31 leaves out.
pub(crate) fn past_length_32(to: Stdout) {
    let list = [0, 33, 0, 0, 0, 65535, 0, 65535, 0, 255, 0];
    check_list(to, b"length 33", &list);
    scan_list(to, b"length 33", &list, &web(0));
    check_list(
        to,
        b"length 31, the last bit set",
        &[1, 31, 0, 0, 0, 65535, 0, 65535, 0, 255, 0],
    );
    check_list(
        to,
        b"length 32, the last bit set",
        &[1, 32, 0, 0, 0, 65535, 0, 65535, 0, 255, 0],
    );
}

// Destination ports 1 to 65535 and then all: 65536 is no port, and only all of them match it.
pub(crate) fn ports(to: Stdout) {
    let list = [
        0, 0, 0, 0, 0, 65535, 1, 65535, 0, 255, 0, 0, 0, 0, 0, 0, 65535, 0, 65535, 0, 255, 0,
    ];
    search_list(to, b"port 65535", &list, &[0, 0, 0, 65535, 6]);
    search_list(to, b"no port", &list, &[0, 0, 0, 65536, 6]);
    let nodes = [3, 65535, 2, 5, 0, 2, 5, 2, 1];
    check_tree(to, b"a cut at 65535", &list, &nodes, &[0, 1, 1]);
    let lacking = [3, 65535, 2, 5, 0, 2, 5, 2, 0];
    check_tree(
        to,
        b"a cut at 65535, lacking right of it",
        &list,
        &lacking,
        &[0, 1],
    );
    let empty = [3, 65536, 2, 5, 0, 2, 5, 2, 1];
    check_tree(to, b"a cut at 65536", &list, &empty, &[0, 1, 1]);
    let past = [0, 0, 0, 0, 0, 65536, 0, 65536, 0, 255, 0];
    check_list(to, b"ports to 65536", &past);
    scan_list(
        to,
        b"ports to 65536, no port",
        &past,
        &[0, 0, 65536, 65536, 6],
    );
}

// 512 rules: only the last holds protocol 6. Then the last is not good.
pub(crate) fn rules_512(to: Stdout) {
    let mut list = many();
    list[5630] = 255;
    good_512(to, list);
    list[5629] = 256;
    bad_512(to, list);
}

fn good_512(to: Stdout, list: [u32; 5643]) {
    check_list(to, b"512 rules", &list[0..5632]);
    search_list(to, b"512 rules", &list[0..5632], &[0, 0, 0, 0, 6]);
    check_list(to, b"512 rules but one word", &list[0..5631]);
}

fn bad_512(to: Stdout, list: [u32; 5643]) {
    check_list(to, b"512 rules, the last not good", &list[0..5632]);
    scan_list(to, b"512 rules, the last not good", &list[0..5632], &[0; 5]);
    read_list(
        to,
        b"a file of 512 rules, cut after its first line",
        b"rules\t512\n",
        &mut [0; 5632],
    );
}

// One rule more.
pub(crate) fn rules_513(to: Stdout) {
    let mut list = many();
    list[5641] = 255;
    lists_513(to, list);
}

fn lists_513(to: Stdout, list: [u32; 5643]) {
    check_list(to, b"513 rules", &list);
    search_list(to, b"513 rules", &list, &[0, 0, 0, 0, 6]);
    scan_list(to, b"513 rules", &list, &[0, 0, 0, 0, 6]);
    scan_list(
        to,
        b"513 rules but one word",
        &list[0..5642],
        &[0, 0, 0, 0, 6],
    );
    check_tree(to, b"513 rules", &list, &[5, 0, 0], &[]);
    read_list(
        to,
        b"a file of 513 rules, cut after its first line",
        b"rules\t513\n",
        &mut [0; 5643],
    );
}

// 513 rules: each has the source ports from 0 to its own number, and is 0 otherwise.
fn many() -> [u32; 5643] {
    let mut list = [0u32; 5643];
    for i in 0..513 {
        list[11 * i + 5] = i as u32;
    }
    list
}

// 63 cuts above the last leaf.
pub(crate) fn cuts_63(to: Stdout) {
    let nodes = chain(63);
    check_tree(to, b"63 cuts", &[], &nodes[0..381], &[]);
    search_tree(
        to,
        b"63 cuts",
        &[],
        &nodes[0..381],
        &[],
        &[0xffffffff, 0, 0, 0, 0],
    );
}

// One cut more. The search has no such limit.
pub(crate) fn cuts_64(to: Stdout) {
    let nodes = chain(64);
    check_tree(to, b"64 cuts", &[], &nodes, &[]);
    search_tree(to, b"64 cuts", &[], &nodes, &[], &[0xffffffff, 0, 0, 0, 0]);
}

// So many cuts, each the right child of the one above, with an empty leaf on its left; then the last leaf.
fn chain(cuts: usize) -> [u32; 387]
    requires { cuts ≤ 64 }
{
    let mut nodes = [0u32; 387];
    nodes[6 * cuts] = 5;
    for i in 0..cuts {
        nodes[6 * i + 1] = i as u32;
        nodes[6 * i + 2] = 2 * i as u32 + 2;
        nodes[6 * i + 3] = 5;
    }
    nodes
}
