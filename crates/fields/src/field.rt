// One field of a rule: a prefix, a range with the largest end that it may have, or a range of ports.
ghost use Rattle.std.specs.Prelude.{◌≡◌};
ghost use Rattle.fields.specs.Fields.{field_good, field_matches, field_bounds, field_meets};

use crate::port::{LARGEST_PORT, ports_end, ports_match};
use crate::prefix::{prefix_agrees, prefix_good, prefix_last, prefix_meets};
use crate::range::{range_good, range_holds, ranges_meet};

#[derive(Clone, Copy)]
pub enum Field {
    Prefix { address: u32, len: u32 },
    Range { low: u32, high: u32, largest: u32 },
    Ports { low: u32, high: u32 },
}

// Whether the prefix is good, or the range is and ends no later than it may.
pub fn field_good(field: Field) -> bool
    ensures { result ≡ field_good field }
{
    match field {
        Field::Prefix { address, len } => prefix_good(address, len),
        Field::Range { low, high, largest } => range_good(low, high, largest),
        Field::Ports { low, high } => range_good(low, high, LARGEST_PORT),
    }
}

// Whether the first bits of the word agree with the prefix, or the word lies in the range. An absent port matches all
// ports alone.
pub fn field_matches(field: Field, word: u32) -> bool
    ensures { result ≡ field_matches field word }
{
    match field {
        Field::Prefix { address, len } => prefix_agrees(address, len, word),
        Field::Range {
            low,
            high,
            largest: _,
        } => range_holds(low, high, word),
        Field::Ports { low, high } => ports_match(low, high, word),
    }
}

// The low and the high end of the range that a good field stands for; that of all ports goes on to the absent one. A
// prefix that is not good ends where its range would, but no later than at the largest address.
pub fn field_bounds(field: Field) -> [u32; 2]
    ensures { result ≡ field_bounds field }
{
    match field {
        Field::Prefix { address, len } => [address, prefix_last(address, len)],
        Field::Range {
            low,
            high,
            largest: _,
        } => [low, high],
        Field::Ports { low, high } => [low, ports_end(low, high)],
    }
}

// Whether the range that the field stands for meets the one between the two ends.
pub fn field_meets(field: Field, ends: [u32; 2]) -> bool
    ensures { result ≡ field_meets field ends }
{
    let [from, to] = ends;
    match field {
        Field::Prefix { address, len } => prefix_meets(address, len, from, to),
        Field::Range {
            low,
            high,
            largest: _,
        } => ranges_meet(low, high, from, to),
        Field::Ports { low, high } => ranges_meet(low, ports_end(low, high), from, to),
    }
}
