// What a program is started with.
ghost use Rattle.std.specs.Prelude.{◌≡◌, length, take};
ghost use Rattle.std.specs.Counts.{IsPrefixLen};
ghost use Rattle.ledger.specs.Ledger.{enter, counted, argued};

use crate::entry::one_more;
use crate::handle::Handle;
use std::env::FillError;
use std::rt::Env;

// How many arguments there are, the program's own name among them.
pub fn argument_count(ledger: &mut u64, handle: Handle) -> usize
    ensures { ledger.new ≡ enter ledger.old (counted result) }
{
    *ledger = one_more(*ledger, 0);
    for count in 0..usize::MAX {
        if !is_given(handle, count) {
            return count;
        }
    }
    usize::MAX
}

// Whether there is an argument `i`: one that has more bytes than there is room for is there too.
fn is_given(handle: Handle, i: usize) -> bool {
    let mut room = [0u8; 1];
    match handle.rt.arg(i, &mut room) {
        Ok(_) => true,
        Err(FillError::TooLong) => true,
        Err(FillError::NotPresent) => false,
    }
}

// Argument `i`, from the front of `room` on, and how many bytes it has: none where it is missing, or has more bytes
// than there is room for.
pub fn argument(ledger: &mut u64, handle: Handle, i: usize, room: &mut [u8]) -> usize
    ensures ledger_after { ledger.new ≡ enter ledger.old
        (argued i (length room.new) (take result room.new)) }
    ensures within { IsPrefixLen result room.new }
{
    let count = handle.rt.arg(i, room).unwrap_or(0);
    *ledger = one_more(*ledger, count);
    count
}
