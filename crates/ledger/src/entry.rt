// The ledger's number, one entry further.
ghost use Rattle.std.specs.Prelude.{◌≡◌, ◌+◌, ◌%◌, ◌^◌};

// One for the call, and one for each byte that goes with it, counted round at 64 bits.
pub(crate) fn one_more(ledger: u64, bytes: usize) -> u64
    ensures { result ≡ (ledger + (1 + bytes) % 2 ^ 64) % 2 ^ 64 }
{
    ledger.wrapping_add((bytes as u64).wrapping_add(1))
}
