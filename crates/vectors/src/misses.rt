// Why a rule missed: of the worked policy, of one rule that is narrow in every field, and where the call is refused.
use crate::calls::compare_rule;
use crate::policy::{RULES, header, web};
use std::rt::Stdout;

// Rule 0 of the worked policy, to 192.168.0.0/16 and from source port 40,000 alone.
const NARROW: [u32; 11] = [0x0a000000, 8, 0xc0a80000, 16, 40000, 40000, 80, 80, 6, 6, 0];

const NARROW_TWICE: [u32; 22] = [
    0x0a000000, 8, 0xc0a80000, 16, 40000, 40000, 80, 80, 6, 6, 0, 0x0a000000, 8, 0xc0a80000, 16,
    40000, 40000, 80, 80, 6, 6, 0,
];

// Rules of the worked policy.
pub(crate) fn worked_list(to: Stdout) {
    miss(to, b"rule 0, all fields agree", &web(0x0a010203), 0);
    miss(to, b"rule 0, another source", &web(0x0b000000), 0);
    miss(to, b"rule 1, another source", &web(0x0a020001), 1);
    miss(to, b"rule 0, another port", &header(0x0a010203, 443, 6), 0);
    miss(
        to,
        b"rule 0, another protocol",
        &header(0x0a010203, 80, 17),
        0,
    );
    miss(
        to,
        b"rule 0, another port and protocol",
        &header(0x0a010203, 443, 17),
        0,
    );
    miss(to, b"rule 0, no port", &header(0x0a010203, 65536, 6), 0);
    miss(to, b"rule 2, no port", &header(0x0a010203, 65536, 6), 2);
}

fn miss(to: Stdout, example: &[u8], words: &[u32], number: usize) {
    compare_rule(to, example, &RULES, words, number);
}

// The narrow rule: one field disagrees, or many do.
pub(crate) fn narrow_rule(to: Stdout) {
    narrow(
        to,
        b"a narrow rule, all fields agree",
        [0x0a010203, 0xc0a80001, 40000, 80, 6],
    );
    narrow(
        to,
        b"a narrow rule, another destination",
        [0x0a010203, 0xc0a90000, 40000, 80, 6],
    );
    narrow(
        to,
        b"a narrow rule, another source port",
        [0x0a010203, 0xc0a80001, 40001, 80, 6],
    );
    narrow(
        to,
        b"a narrow rule, all but the source disagree",
        [0x0a010203, 0xc0a90000, 40001, 81, 7],
    );
    narrow(
        to,
        b"a narrow rule, all fields disagree",
        [0x0b000000, 0xc0a90000, 40001, 81, 7],
    );
}

fn narrow(to: Stdout, example: &[u8], words: [u32; 5]) {
    compare_rule(to, example, &NARROW, &words, 0);
}

// No such rule.
pub(crate) fn no_rule(to: Stdout) {
    let words = web(0x0a010203);
    miss(to, b"no rule 3", &words, 3);
    miss(to, b"no rule 18446744073709551615", &words, usize::MAX);
    compare_rule(to, b"no rule 0 among no rules", &[], &words, 0);
}

// No such rule either, but the list and the header are judged first.
pub(crate) fn judged_first(to: Stdout) {
    let too_large = header(0x0a010203, 80, 256);
    miss(
        to,
        b"no rule 3, a header of four words",
        &[0x0a010203, 0xc0a80001, 40000, 80],
        3,
    );
    miss(to, b"no rule 3, protocol 256", &too_large, 3);
    compare_rule(
        to,
        b"no rule 3, 32 words of rules",
        &RULES[0..32],
        &too_large,
        3,
    );
    compare_rule(to, b"no rule 3, twins", &NARROW_TWICE, &too_large, 3);
}
