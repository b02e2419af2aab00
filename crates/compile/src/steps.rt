// One step of a compile. There is room for every text.
ghost use Rattle.std.specs.Prelude.{◌≡◌, length};
ghost use Rattle.ledger.specs.Ledger.{Enters};
ghost use Rattle.policy.specs.Files.{text_in, most_file};
ghost use Rattle.policy.specs.Steps.{on_verdict, on_text};
ghost use Rattle.policy.specs.StepOutput.{text_or, first_step};
ghost use Rattle.system.specs.Handing.{HandedOut};
ghost use Rattle.system.specs.Runs.{Anew, NextStep};
ghost use Rattle.compile.specs.Asks.{PartLoaded};

use ledger::arguments::argument;
use ledger::handle::Handle;
use policy::file::MOST_FILE;
use policy::part::{Begun, goes_on, take_part};
use policy::step::{on_text, some_text};
use refusals::Refusal;
use system::load::load;
use system::out::{say, say_verdict};
use trees::words::{MOST_NODES, MOST_POOL, NODE_WORDS};

// The most bytes of a path.
const MOST_PATH: usize = 4095;

// Takes a step from nothing, and writes its text, or why there is none.
pub(crate) fn write_first(
    ledger: &mut u64,
    handle: Handle,
    rules: &[u32],
    most: usize,
    out: &mut [u8; MOST_FILE],
) -> bool
    ensures { Enters (HandedOut (first_step rules.now most) result) ledger.old
        ledger.new }
{
    match some_text(rules, most, out) {
        Err(why) => say_verdict(ledger, handle, Err(why)),
        Ok(bytes) => say(ledger, handle, &out[..bytes]),
    }
}

// Takes a step from the part in the file that is named; or, where that part is refused, from nothing.
pub(crate) fn write_next(
    ledger: &mut u64,
    handle: Handle,
    rules: &[u32],
    most: usize,
    out: &mut [u8; MOST_FILE],
) -> bool
    ensures { Enters (NextStep rules.now most result) ledger.old ledger.new }
{
    let mut nodes = [0u32; MOST_NODES * NODE_WORDS];
    let mut pool = [0u32; MOST_POOL];
    let file = load_part(ledger, handle, out);
    let begun = take_part(file, out, &mut nodes, &mut pool);
    match goes_on(begun, rules, &nodes, &pool) {
        Err(why) => begin_anew(ledger, handle, rules, why, most, out),
        Ok(
            Begun {
                rules: count,
                nodes: n,
                pool: p,
            },
        ) => write_on(
            ledger,
            handle,
            rules,
            count,
            &nodes[..n],
            &pool[..p],
            most,
            out,
        ),
    }
}

// The file that the second argument names. A path that is too long counts as none.
fn load_part(ledger: &mut u64, handle: Handle, buffer: &mut [u8]) -> Option<usize>
    ensures { Enters (PartLoaded (length buffer.new) (text_in result buffer.new))
        ledger.old ledger.new }
{
    let mut path = [0u8; MOST_PATH];
    let n = argument(ledger, handle, 2, &mut path);
    load(ledger, handle, &path[..n], buffer)
}

// Says why the part is refused, and takes a step from nothing.
fn begin_anew(
    ledger: &mut u64,
    handle: Handle,
    rules: &[u32],
    why: Refusal,
    most: usize,
    out: &mut [u8; MOST_FILE],
) -> bool
    ensures { Enters (Anew rules.now most why result) ledger.old ledger.new }
{
    if !say_verdict(ledger, handle, Err(why)) {
        return false;
    }
    write_first(ledger, handle, rules, most, out)
}

// Takes a step from a part, and writes its text, or why there is none.
fn write_on(
    ledger: &mut u64,
    handle: Handle,
    rules: &[u32],
    count: usize,
    part: &[u32],
    kept: &[u32],
    most: usize,
    out: &mut [u8; MOST_FILE],
) -> bool
    ensures { Enters
        (HandedOut (text_or (on_verdict rules.now count part.now kept.now most)
        (on_text rules.now part.now kept.now most)) result)
        ledger.old ledger.new }
{
    match on_text(rules, count, part, kept, most, out) {
        Err(why) => say_verdict(ledger, handle, Err(why)),
        Ok(bytes) => say(ledger, handle, &out[..bytes]),
    }
}
