// Standard output: what is due is handed out, and entered in the ledger.
ghost use Rattle.console.specs.Gathered.{last_reply};
ghost use Rattle.ledger.specs.Ledger.{Enters};
ghost use Rattle.policy.specs.Output.{verdict_line};
ghost use Rattle.system.specs.Handing.{HandedOut, FrontWithin, FrontHanded};

use console::feed::last_reply;
use console::gather::Gathering;
use ledger::handle::Handle;
use ledger::output::write_out;
use policy::line::verdict_line;
use refusals::Refusal;

// The most bytes of the line of a refusal: `refused`, three numbers of at most 20 digits, their tabs and the newline.
pub const MOST_REFUSED: usize = 71;

// Writes bytes, and answers whether all of them were written. The system is not asked where there are none.
pub fn say(ledger: &mut u64, handle: Handle, bytes: &[u8]) -> bool
    ensures { Enters (HandedOut bytes.now result) ledger.old ledger.new }
{
    if bytes.is_empty() {
        return true;
    }
    write_out(ledger, handle, bytes)
}

// Writes the line of a refusal, or nothing where the verdict is fine; and answers whether it was written.
pub fn say_verdict(ledger: &mut u64, handle: Handle, verdict: Result<(), Refusal>) -> bool
    ensures { Enters (HandedOut (verdict_line verdict) result) ledger.old ledger.new }
{
    let mut out = [0u8; MOST_REFUSED];
    let said = verdict_line(verdict, &mut out);
    say_written(ledger, handle, said, &out)
}

// Writes what is due at the end of the input: the reply to a last part without newline.
pub(crate) fn say_last(ledger: &mut u64, handle: Handle, gathering: Gathering) -> bool
    ensures { Enters (HandedOut (last_reply gathering) result) ledger.old ledger.new }
{
    let mut out = [0u8; MOST_REFUSED];
    let said = last_reply(gathering, &mut out);
    say_written(ledger, handle, said, &out)
}

// Writes what stands in front of `out`; nothing where it found no room there.
fn say_written(ledger: &mut u64, handle: Handle, said: Result<usize, Refusal>, out: &[u8]) -> bool
    requires { FrontWithin said out.now }
    ensures { Enters (FrontHanded said out.now result) ledger.old ledger.new }
{
    match said {
        Err(_) => false,
        Ok(bytes) => say(ledger, handle, &out[..bytes]),
    }
}
