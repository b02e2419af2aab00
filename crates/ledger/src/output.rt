// Standard output.
ghost use Rattle.std.specs.Prelude.{◌≡◌};
ghost use Rattle.ledger.specs.Ledger.{enter, wrote};

use crate::entry::one_more;
use crate::handle::Handle;
use std::io::Print;

// Writes the bytes, and answers whether all of them were written.
pub fn write_out(ledger: &mut u64, handle: Handle, bytes: &[u8]) -> bool
    ensures { ledger.new ≡ enter ledger.old (wrote bytes.now result) }
{
    *ledger = one_more(*ledger, bytes.len());
    handle.rt.write_all(bytes).is_ok()
}
