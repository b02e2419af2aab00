// Boxes as values: for each field its low and its high end, both included.
ghost use Rattle.std.specs.Prelude.{◌+◌, ◌<◌, ◌≡◌, ◌∷◌, []};
ghost use Rattle.fields.specs.Boxes.{root_box};
ghost use Rattle.fields.specs.Cuts.{divides, left_part, right_part};

use crate::header::{FIELDS, TOPS};

// For each field a pair of low and high.
pub type Bounds = [[u32; 2]; FIELDS];

// The box of every legal header: from 0 to the top of each field.
pub fn root_box() -> Bounds
    ensures { result ≡ root_box }
{
    TOPS.map(
        |top: u32| -> [u32; 2]
            ensures { result ≡ 0 ∷ top ∷ [] }
        { [0, top] },
    )
}

// Whether the value is at least the low end and below the high end of the field. Past the last field it is not.
pub fn divides(bounds: Bounds, field: usize, value: u32) -> bool
    ensures { result ≡ divides bounds field value }
{
    field < FIELDS && (bounds[field][0]..bounds[field][1]).contains(&value)
}

// What a cut leaves its left child: low to value. A value that does not divide the box leaves the box.
pub fn left_part(bounds: Bounds, field: usize, value: u32) -> Bounds
    ensures { result ≡ left_part bounds field value }
{
    if !divides(bounds, field, value) {
        return bounds;
    }
    let mut part = bounds;
    part[field][1] = value;
    part
}

// What a cut leaves its right child: value + 1 to high. A value that does not divide the box leaves the box.
pub fn right_part(bounds: Bounds, field: usize, value: u32) -> Bounds
    ensures { result ≡ right_part bounds field value }
{
    if !divides(bounds, field, value) {
        return bounds;
    }
    let mut part = bounds;
    part[field][0] = after(value, bounds[field][1]);
    part
}

// The value after one that is below the high end, and so not the largest. The end is passed since it shows that the sum
// fits its type.
fn after(value: u32, high: u32) -> u32
    requires { value < high }
    ensures { result ≡ value + 1 }
{
    value + 1
}
