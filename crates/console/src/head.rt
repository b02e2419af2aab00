// What an input line asks: the header of a head line.
ghost use Rattle.std.specs.Prelude.{◌≡◌};
ghost use Rattle.console.specs.Heads.{head_at, head_from, in_head};

use fields::header::FIELDS;
use text::address::{address_of, octets_fit};
use text::cursor::Cursor;
use text::words::{HEAD, HEAD_MARKS, MOST_FIELDS};

// The most bytes of an input line without its newline.
pub const MOST_BYTES: usize = 64;

// The header that a line without its newline asks about.
pub fn head_in(line: &[u8]) -> Option<[u32; FIELDS]>
    ensures { result ≡ head_at line.now }
{
    if MOST_BYTES < line.len() {
        return None;
    }
    let start = Cursor { at: 0, lines: 0 };
    let read = start.whole(line, &HEAD, &HEAD_MARKS).ok()?;
    head_of(read.values)
}

// The header that the numbers of a line say, if the octets are octets.
fn head_of(values: [u32; MOST_FIELDS]) -> Option<[u32; FIELDS]>
    ensures { result ≡ in_head (head_from values) }
{
    if !octets_fit(values[0], values[1], values[2], values[3]) {
        return None;
    }
    if !octets_fit(values[4], values[5], values[6], values[7]) {
        return None;
    }
    let source = address_of(values[0], values[1], values[2], values[3]);
    let destination = address_of(values[4], values[5], values[6], values[7]);
    Some([source, destination, values[8], values[9], values[10]])
}
