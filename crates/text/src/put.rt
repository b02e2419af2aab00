// Writing to lent bytes from a place on, as far as there is room. Each function answers the place after what it put, so
// that the same calls on no room at all count the bytes.
ghost use Rattle.std.specs.Prelude.{[], ◌∷◌, length, replicate};
ghost use Rattle.text.specs.Words.{tab};
ghost use Rattle.text.specs.Numbers.{digits_of};
ghost use Rattle.text.specs.Line.{print_fields, print_line, ended};
ghost use Rattle.text.specs.Puts.{Put};

use crate::place::following;
use crate::words::{NEWLINE, TAB};

// A line: its word, a number behind each separator, and the newline.
pub fn put_line(out: &mut [u8], at: usize, word: &[u8], marks: &[u8], values: &[u32]) -> usize
    ensures { Put out.old at
        (ended (print_line word.now marks.now values.now)) out.new result }
{
    let p = put_bytes(out, at, word);
    let q = put_fields(out, p, marks, values);
    put(out, q, NEWLINE)
}

// The bytes of a word.
pub fn put_bytes(out: &mut [u8], at: usize, word: &[u8]) -> usize
    ensures { Put out.old at word.now out.new result }
{
    let mut p = at;
    for byte in word {
        p = put(out, p, *byte);
    }
    p
}

// A number behind each separator, as long as there are both.
pub fn put_fields(out: &mut [u8], at: usize, marks: &[u8], values: &[u32]) -> usize
    ensures { Put out.old at (print_fields marks.now values.now)
        out.new result }
{
    let mut p = at;
    for (mark, value) in marks.iter().zip(values) {
        p = put_behind(out, p, *mark, *value);
    }
    p
}

// Each number behind a tab.
pub fn put_numbers(out: &mut [u8], at: usize, values: &[u32]) -> usize
    ensures { Put out.old at
        (print_fields (replicate (length values.now) tab) values.now) out.new result }
{
    let mut p = at;
    for value in values {
        p = put_behind(out, p, TAB, *value);
    }
    p
}

// A separator and a number of 32 bits behind it.
pub fn put_behind(out: &mut [u8], at: usize, mark: u8, value: u32) -> usize
    ensures { Put out.old at (mark ∷ digits_of value) out.new result }
{
    put_wide(out, at, mark, u64::from(value))
}

// A separator and a number of 64 bits behind it.
pub fn put_wide(out: &mut [u8], at: usize, mark: u8, value: u64) -> usize
    ensures { Put out.old at (mark ∷ digits_of value) out.new result }
{
    let p = put(out, at, mark);
    put_number(out, p, value)
}

// A number in decimal.
fn put_number(out: &mut [u8], at: usize, value: u64) -> usize
    ensures { Put out.old at (digits_of value) out.new result }
{
    if value < 10 {
        return put(out, at, b'0' + value as u8);
    }
    let p = put_number(out, at, value / 10);
    put(out, p, b'0' + (value % 10) as u8)
}

// One byte.
pub fn put(out: &mut [u8], at: usize, byte: u8) -> usize
    ensures { Put out.old at (byte ∷ []) out.new result }
{
    if at < out.len() {
        out[at] = byte;
    }
    following(at)
}
