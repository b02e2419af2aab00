// Headers: five words, fields 0 to 4.
ghost use Rattle.std.specs.Prelude.{◌≡◌};
ghost use Rattle.fields.specs.Headers.{header_verdict};

use crate::port::ABSENT_PORT;
use refusals::Refusal;

// The number of fields, and so of a header's words.
pub const FIELDS: usize = 5;

// The largest value of each field: source, destination, source port, destination port, protocol.
pub(crate) const TOPS: [u32; FIELDS] = [u32::MAX, u32::MAX, ABSENT_PORT, ABSENT_PORT, 255];

// Whether a header is legal. The length is looked at first, and then the fields, from the lowest.
pub fn header_verdict(header: &[u32]) -> Result<(), Refusal>
    ensures { result ≡ header_verdict header.now }
{
    if header.len() != FIELDS {
        return Err(Refusal::HeaderWrong { field: FIELDS });
    }
    for field in 0..FIELDS {
        if TOPS[field] < header[field] {
            return Err(Refusal::HeaderWrong { field });
        }
    }
    Ok(())
}
