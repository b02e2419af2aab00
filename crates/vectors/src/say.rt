// The parts of a line of the output.
use refusals::{Refusal, extra_of, number_of, place_of};
use std::fmt::Display;
use std::io::Print;
use std::rt::Stdout;

// Bytes as they are. It is not looked at whether they were written.
pub(crate) fn bytes(to: Stdout, text: &[u8]) {
    to.write_all(text).is_ok();
}

// The example and the call.
pub(crate) fn begin(to: Stdout, example: &[u8], call: &[u8]) {
    bytes(to, example);
    word(to, call);
}

// A word of its own.
pub(crate) fn word(to: Stdout, text: &[u8]) {
    bytes(to, b"\t");
    bytes(to, text);
}

// A number.
pub(crate) fn value<D: Display + Drop>(to: Stdout, n: D) {
    bytes(to, b"\t");
    to.print(n).is_ok();
}

// 0 and the values of an answer, or its refusal.
pub(crate) fn answer<const N: usize>(to: Stdout, said: Result<[usize; N], Refusal>) {
    match said {
        Ok(values) => {
            value(to, 0);
            for n in values {
                value(to, n);
            }
        }
        Err(why) => refused(to, why),
    }
}

// The number, place and extra of a refusal.
pub(crate) fn refused(to: Stdout, why: Refusal) {
    value(to, number_of(why));
    value(to, place_of(why));
    value(to, extra_of(why));
}

// Lent words after the call.
pub(crate) fn words(to: Stdout, out: &[u32]) {
    word(to, b":");
    for n in out {
        value(to, *n);
    }
}

// The end of the line.
pub(crate) fn end(to: Stdout) {
    bytes(to, b"\n");
}
