// The program. It reads the policy in the folder where it is started, `rules.txt` and `tree.txt`, and answers the lines
// of standard input on standard output. What it asks of the system, and what it writes, is settled by the contract of
// `run`.
#![tactic(auto)]

ghost use Rattle.ledger.specs.Ledger.{Enters};
ghost use Rattle.system.specs.Runs.{Served, ProgramRan};

use ledger::handle::Handle;
use policy::file::MOST_FILE;
use policy::list::take_list;
use policy::serving::who_serves;
use policy::tree::take_tree;
use rules::words::{MOST_RULES, RULE_WORDS};
use system::load::{RULES_FILE, load};
use system::out::say_verdict;
use system::serve::serve;
use trees::words::{MOST_NODES, MOST_POOL, NODE_WORDS};

const TREE_FILE: [u8; 8] = *b"tree.txt";

// The ledger is begun, and goes through the whole run.
fn main(rt: HostRuntime) {
    let mut ledger = 0u64;
    run(&mut ledger, Handle::new(rt));
}

// The text of each file is read into one buffer, which is cleared for it. A refused list ends the program.
fn run(ledger: &mut u64, handle: Handle) -> bool
    ensures { Enters (ProgramRan result) ledger.old ledger.new }
{
    let mut buffer = [0u8; MOST_FILE];
    let mut rules = [0u32; MOST_RULES * RULE_WORDS];
    let file = load(ledger, handle, &RULES_FILE, &mut buffer);
    match take_list(file, &buffer, &mut rules) {
        Err(why) => say_verdict(ledger, handle, Err(why)),
        Ok(words) => {
            buffer = [0u8; MOST_FILE];
            answer(ledger, handle, &mut buffer, &rules[..words])
        }
    }
}

// Answers by the tree where its file is accepted. Where it is refused, that is told, and the list answers; but not
// where it could not be told.
fn answer(ledger: &mut u64, handle: Handle, buffer: &mut [u8; MOST_FILE], rules: &[u32]) -> bool
    ensures { Enters (Served rules.now result) ledger.old ledger.new }
{
    let mut nodes = [0u32; MOST_NODES * NODE_WORDS];
    let mut pool = [0u32; MOST_POOL];
    let file = load(ledger, handle, &TREE_FILE, buffer);
    let taken = take_tree(file, buffer, &mut nodes, &mut pool);
    let serving = who_serves(taken, rules, &nodes, &pool);
    let refused = serving.refused;
    let accepted = serving.accepted;
    let n = serving.nodes;
    let p = serving.pool;
    if !say_verdict(ledger, handle, refused) {
        return false;
    }
    serve(ledger, handle, rules, &nodes[..n], &pool[..p], accepted)
}
