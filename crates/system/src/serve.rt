// The lines of standard input, answered. Each is answered before the program waits for more.
ghost use Rattle.std.specs.Prelude.{◌≤◌, ◌≡◌, length};
ghost use Rattle.console.specs.Lines.{most_reply};
ghost use Rattle.console.specs.Replies.{answer_to};
ghost use Rattle.console.specs.MissLines.{miss_answer};
ghost use Rattle.console.specs.Feeding.{IsFed};
ghost use Rattle.ledger.specs.Reads.{Gets};
ghost use Rattle.ledger.specs.Ledger.{Enters};
ghost use Rattle.system.specs.Turns.{answer_for, most_piece};
ghost use Rattle.system.specs.Turns.{PieceAnswered, GotAnswered, SomeAnswered, InputAnswered};

use crate::out::{say, say_last};
use console::feed::{Fed, feed, feed_why};
use console::gather::Gathering;
use ledger::handle::Handle;
use ledger::input::{Got, read_some, standard_input};

// The bytes that are read at once at most, and the bytes of replies that are written at once at most.
const PIECE: usize = 65536;

// What the lines ask of their headers: which rules match, by the tree if it was accepted; or why one rule misses.
#[derive(Clone, Copy)]
pub(crate) enum Asked {
    Matches { accepted: bool },
    Misses { rule: usize },
}

// After some input: more is to be read, or no more; and the line that is being gathered. Or a reply was not written.
#[derive(Clone, Copy)]
pub(crate) enum Turn {
    Going(Gathering),
    Over(Gathering),
    Stopped,
}

// Answers which rules match, by the tree if it was accepted; and answers whether all that was due was written.
pub fn serve(
    ledger: &mut u64,
    handle: Handle,
    rules: &[u32],
    nodes: &[u32],
    pool: &[u32],
    accepted: bool,
) -> bool
    ensures { Enters
        (InputAnswered (answer_to accepted rules.now nodes.now pool.now) result)
        ledger.old ledger.new }
{
    answer_lines(
        ledger,
        handle,
        rules,
        nodes,
        pool,
        Asked::Matches { accepted },
    )
}

// Answers why rule `rule` misses; and answers whether all that was due was written.
pub fn serve_why(ledger: &mut u64, handle: Handle, rules: &[u32], rule: usize) -> bool
    ensures { Enters (InputAnswered (miss_answer rules.now rule) result) ledger.old
        ledger.new }
{
    answer_lines(
        ledger,
        handle,
        rules,
        &rules[..0],
        &rules[..0],
        Asked::Misses { rule },
    )
}

// Answers standard input to its end, and then the part that has no newline. Output that cannot be written stops it.
// Nothing proves that input ends, so the reads are counted, up to a number that no run uses up.
fn answer_lines(
    ledger: &mut u64,
    handle: Handle,
    rules: &[u32],
    nodes: &[u32],
    pool: &[u32],
    asked: Asked,
) -> bool
    ensures { Enters
        (InputAnswered (answer_for asked rules.now nodes.now pool.now) result)
        ledger.old ledger.new }
{
    let mut piece = [0u8; PIECE];
    let mut out = [0u8; PIECE];
    let mut turn = Turn::Going(Gathering::start());
    for _ in 0..u64::MAX {
        let Turn::Going(from) = turn else {
            break;
        };
        turn = answer_some(
            ledger, handle, rules, nodes, pool, asked, from, &mut piece, &mut out,
        );
    }
    match turn {
        Turn::Going(last) | Turn::Over(last) => say_last(ledger, handle, last),
        Turn::Stopped => false,
    }
}

// Reads once, and answers what came.
fn answer_some(
    ledger: &mut u64,
    handle: Handle,
    rules: &[u32],
    nodes: &[u32],
    pool: &[u32],
    asked: Asked,
    from: Gathering,
    piece: &mut [u8],
    out: &mut [u8],
) -> Turn
    requires most_reply_in_bounds { most_reply ≤ length out.old }
    requires piece_len { length piece.old ≡ most_piece }
    ensures { Enters
        (SomeAnswered (answer_for asked rules.now nodes.now pool.now)
        from result) ledger.old ledger.new }
{
    let input = standard_input(handle);
    let got = read_some(ledger, &input, piece);
    answer_got(
        ledger, handle, rules, nodes, pool, asked, from, got, piece, out,
    )
}

// Answers the lines that end in what a read gave. A read that fails ends the input, as its end does.
fn answer_got(
    ledger: &mut u64,
    handle: Handle,
    rules: &[u32],
    nodes: &[u32],
    pool: &[u32],
    asked: Asked,
    from: Gathering,
    got: Got,
    piece: &[u8],
    out: &mut [u8],
) -> Turn
    requires most_reply_in_bounds { most_reply ≤ length out.old }
    requires gets { Gets piece.now got }
    ensures { Enters
        (GotAnswered (answer_for asked rules.now nodes.now pool.now)
        from got piece.now result) ledger.old ledger.new }
{
    match got {
        Got::Failed => Turn::Over(from),
        Got::Ended => Turn::Over(from),
        Got::Bytes { count } => answer_piece(
            ledger,
            handle,
            rules,
            nodes,
            pool,
            asked,
            from,
            &piece[..count],
            out,
        ),
    }
}

// Answers the lines that end in a piece of the input, as many at once as there is room for. A reply for which there is
// none is not written; there is room for the longest reply of a good list.
fn answer_piece(
    ledger: &mut u64,
    handle: Handle,
    rules: &[u32],
    nodes: &[u32],
    pool: &[u32],
    asked: Asked,
    from: Gathering,
    piece: &[u8],
    out: &mut [u8],
) -> Turn
    requires { most_reply ≤ length out.old }
    ensures { Enters
        (PieceAnswered (answer_for asked rules.now nodes.now pool.now) from
        piece.now result) ledger.old ledger.new }
{
    let mut gathering = from;
    let mut at = 0;
    // A turn takes as many bytes as their replies find room for, so that no count of turns is known.
    while at < piece.len() {
        let fed = feed_asked(rules, nodes, pool, asked, gathering, &piece[at..], out);
        if fed.taken == 0 {
            return Turn::Stopped;
        }
        let filled = fed.filled;
        if !say(ledger, handle, &out[..filled]) {
            return Turn::Stopped;
        }
        gathering = fed.gathering;
        at += fed.taken;
    }
    Turn::Going(gathering)
}

// The replies to a piece of input, by what is asked.
fn feed_asked(
    rules: &[u32],
    nodes: &[u32],
    pool: &[u32],
    asked: Asked,
    from: Gathering,
    piece: &[u8],
    out: &mut [u8],
) -> Fed
    ensures fed { IsFed (answer_for asked rules.now nodes.now pool.now) from
        piece.now out.old result out.new }
    ensures bounded { (result.taken ≤ length piece.now) × (result.filled ≤ length out.new) }
{
    match asked {
        Asked::Matches { accepted } => feed(rules, nodes, pool, accepted, from, piece, out),
        Asked::Misses { rule } => feed_why(rules, rule, from, piece, out),
    }
}
