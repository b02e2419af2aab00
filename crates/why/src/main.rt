// The program that says why a rule misses. It reads the list in the folder where it is started, `rules.txt`, and
// answers the lines of standard input on standard output: whether the rule whose number is its argument matches their
// headers, or which field is the first to disagree, and what the rule says of it. What it asks of the system, and what
// it writes, is settled by the contract of `run`.
#![tactic(auto)]

ghost use Rattle.console.specs.MissLines.{miss_answer};
ghost use Rattle.ledger.specs.Ledger.{Enters};
ghost use Rattle.system.specs.Turns.{InputAnswered};
ghost use Rattle.system.specs.Runs.{ByFile, WhyRan};

use ledger::arguments::argument_count;
use ledger::handle::Handle;
use policy::file::MOST_FILE;
use policy::list::take_list;
use rules::words::{MOST_RULES, RULE_WORDS};
use system::arguments::number_told;
use system::load::{RULES_FILE, load};
use system::out::say_verdict;
use system::serve::serve_why;

// The program's own name, and the number of a rule.
const ARGUMENTS: usize = 2;

// The ledger is begun, and goes through the whole run.
fn main(rt: HostRuntime) {
    let mut ledger = 0u64;
    run(&mut ledger, Handle::new(rt));
}

// Nothing is done for wrong arguments.
fn run(ledger: &mut u64, handle: Handle) -> bool
    ensures { Enters (WhyRan result) ledger.old ledger.new }
{
    if argument_count(ledger, handle) != ARGUMENTS {
        return true;
    }
    match number_told(ledger, handle) {
        None => true,
        Some(n) => answer(ledger, handle, n as usize),
    }
}

// The text of the list is read into a buffer. A refused list ends the program.
fn answer(ledger: &mut u64, handle: Handle, rule: usize) -> bool
    ensures { Enters (ByFile (λ rs. InputAnswered (miss_answer rs rule)) result) ledger.old
        ledger.new }
{
    let mut buffer = [0u8; MOST_FILE];
    let mut rules = [0u32; MOST_RULES * RULE_WORDS];
    let file = load(ledger, handle, &RULES_FILE, &mut buffer);
    match take_list(file, &buffer, &mut rules) {
        Err(why) => say_verdict(ledger, handle, Err(why)),
        Ok(words) => serve_why(ledger, handle, &rules[..words], rule),
    }
}
