// The compiler. It reads the list in the folder where it is started, `rules.txt`, and writes the text of its tree to
// standard output, or one line with the refusal of the list or of its tree. With a number as argument it takes one step
// of so many nodes, and writes the text of the part that stands by then, unless the tree is whole; with a file besides,
// it goes on from the part in that file. Where that part is refused, the line of its refusal is written first, and the
// step is one from nothing. What it asks of the system, and what it writes, is settled by the contract of `run`.
//   steps    one step
#![tactic(auto)]

mod steps;

ghost use Rattle.std.specs.Prelude.{◌≡◌, length};
ghost use Rattle.ledger.specs.Ledger.{Enters};
ghost use Rattle.policy.specs.Files.{most_file};
ghost use Rattle.policy.specs.Compiled.{largest_build, built_text};
ghost use Rattle.policy.specs.StepOutput.{text_or};
ghost use Rattle.system.specs.Handing.{HandedOut};
ghost use Rattle.system.specs.Runs.{ByFile, CompileRan};
ghost use Rattle.compile.specs.Asks.{Due};

use ledger::arguments::argument_count;
use ledger::handle::Handle;
use policy::compiled::compile_text;
use policy::file::MOST_FILE;
use policy::list::take_list;
use rules::words::{MOST_RULES, RULE_WORDS};
use steps::{write_first, write_next};
use system::arguments::number_told;
use system::load::{RULES_FILE, load};
use system::out::{say, say_verdict};

// The whole tree; one step of `most` nodes from nothing; or one from the part in a file.
#[derive(Clone, Copy)]
pub(crate) enum Asks {
    Whole,
    First { most: usize },
    Next { most: usize },
}

// The ledger is begun, and goes through the whole run.
fn main(rt: HostRuntime) {
    let mut ledger = 0u64;
    run(&mut ledger, Handle::new(rt));
}

// No argument asks for the whole; a number of nodes for a step from nothing; with a file besides, for one from the part
// in it. Nothing is done for wrong arguments.
fn run(ledger: &mut u64, handle: Handle) -> bool
    ensures { Enters (CompileRan result) ledger.old ledger.new }
{
    let count = argument_count(ledger, handle);
    if count < 2 {
        return compile_list(ledger, handle, Asks::Whole);
    }
    if 3 < count {
        return true;
    }
    match number_told(ledger, handle) {
        None => true,
        Some(n) => {
            let most = n as usize;
            if count == 2 {
                return compile_list(ledger, handle, Asks::First { most });
            }
            compile_list(ledger, handle, Asks::Next { most })
        }
    }
}

// The text of the list is read into a buffer, which is cleared for what is written. A refused list ends the program.
fn compile_list(ledger: &mut u64, handle: Handle, asks: Asks) -> bool
    ensures { Enters (ByFile (Due asks) result) ledger.old ledger.new }
{
    let mut buffer = [0u8; MOST_FILE];
    let mut rules = [0u32; MOST_RULES * RULE_WORDS];
    let file = load(ledger, handle, &RULES_FILE, &mut buffer);
    match take_list(file, &buffer, &mut rules) {
        Err(why) => say_verdict(ledger, handle, Err(why)),
        Ok(words) => {
            buffer = [0u8; MOST_FILE];
            write_asked(ledger, handle, asks, &rules[..words], &mut buffer)
        }
    }
}

// Writes what is asked for of the list.
fn write_asked(
    ledger: &mut u64,
    handle: Handle,
    asks: Asks,
    rules: &[u32],
    out: &mut [u8; MOST_FILE],
) -> bool
    ensures { Enters (Due asks rules.now result) ledger.old ledger.new }
{
    match asks {
        Asks::Whole => write_tree(ledger, handle, rules, out),
        Asks::First { most } => write_first(ledger, handle, rules, most, out),
        Asks::Next { most } => write_next(ledger, handle, rules, most, out),
    }
}

// Compiles the list, and writes the text of its tree, or why there is none. There is room for every text.
fn write_tree(ledger: &mut u64, handle: Handle, rules: &[u32], out: &mut [u8; MOST_FILE]) -> bool
    ensures { Enters
        (HandedOut (text_or (largest_build rules.now) (built_text rules.now)) result)
        ledger.old ledger.new }
{
    match compile_text(rules, out) {
        Err(why) => say_verdict(ledger, handle, Err(why)),
        Ok(bytes) => say(ledger, handle, &out[..bytes]),
    }
}
