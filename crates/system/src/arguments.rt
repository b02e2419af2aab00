// The number that a program is started with.
ghost use Rattle.std.specs.Prelude.{◌≡◌};
ghost use Rattle.ledger.specs.Ledger.{Enters};
ghost use Rattle.system.specs.TellsNumber.{number_in, TellsNumber};

use ledger::arguments::argument;
use ledger::handle::Handle;
use text::cursor::Cursor;
use text::words::{ONE_TAB, TAB};

// A tab, and a number of 32 bits, which has at most ten digits.
const MOST_LINE: usize = 11;

// The number that the first argument says. An argument that is too long counts as none.
pub fn number_told(ledger: &mut u64, handle: Handle) -> Option<u32>
    ensures { Enters (TellsNumber result) ledger.old ledger.new }
{
    let mut line = [TAB; MOST_LINE];
    let n = argument(ledger, handle, 1, &mut line[1..]);
    let end = n + 1;
    number_in(&line[..end])
}

// The number of a line that has a tab and a number.
fn number_in(line: &[u8]) -> Option<u32>
    ensures { result ≡ number_in line.now }
{
    let here = Cursor { at: 0, lines: 0 };
    let Ok(read) = here.whole(line, &ONE_TAB[..0], &ONE_TAB) else {
        return None;
    };
    Some(read.values[0])
}
