// The line-by-line search: each rule of the list is compared with the header, from the lowest number up. `line_all` and
// `line_first` judge the list first. `scan_all` and `scan_first` judge none, for a list that was judged before; they
// take any words.
ghost use Rattle.std.specs.Prelude.{◌≡◌, length, Ok};
ghost use Rattle.fields.specs.Words.{field_count};
ghost use Rattle.rules.specs.LineAll.{LineAllSearched};
ghost use Rattle.rules.specs.LineFirst.{LineFirstSearched};
ghost use Rattle.rules.specs.Scan.{scan_count, ScanAllSearched, ScanFirstSearched};
ghost use Rattle.rules.specs.ScanSteps.{MatchesListed, MatchesKept, FirstIs};

use crate::check::list_verdict;
use crate::matching::matches;
use crate::words::{RULE_WORDS, action_of};
use fields::header::header_verdict;
use lent::store;
use refusals::Refusal;

// The most rules that a scan looks at: those whose numbers are words of 32 bits.
const MOST_SCANNED: usize = 1 << u32::BITS;

// The lowest rule that matches, and its action.
#[derive(Clone, Copy)]
pub struct Hit {
    pub number: u32,
    pub action: u32,
}

// Every number that matches, rising, from the front of `out` on; the rest of `out` is as found. A refusal writes
// nothing.
pub fn line_all(rules: &[u32], header: &[u32], out: &mut [u32]) -> Result<usize, Refusal>
    ensures { LineAllSearched rules.now header.now out.old result
        out.new }
{
    list_verdict(rules)?;
    scan_all(rules, header, out)
}

// The lowest number that matches and the action of its rule, or that none does. Nothing is written.
pub fn line_first(rules: &[u32], header: &[u32]) -> Result<Option<Hit>, Refusal>
    ensures { LineFirstSearched rules.now header.now result }
{
    list_verdict(rules)?;
    scan_first(rules, header)
}

// As `line_all`, but the list is not judged: words past the last whole rule are no rule.
pub fn scan_all(rules: &[u32], header: &[u32], out: &mut [u32]) -> Result<usize, Refusal>
    ensures { ScanAllSearched rules.now header.now out.old result
        out.new }
{
    header_verdict(header)?;
    list_matches(rules, header, out)
}

// As `line_first`, but the list is not judged.
pub fn scan_first(rules: &[u32], header: &[u32]) -> Result<Option<Hit>, Refusal>
    ensures { ScanFirstSearched rules.now header.now result }
{
    header_verdict(header)?;
    Ok(first_match(rules, header))
}

// Every match, if there is room for them all. Where the room holds all rules, nothing need be counted first.
fn list_matches(rules: &[u32], header: &[u32], out: &mut [u32]) -> Result<usize, Refusal>
    requires { length header.now ≡ field_count }
    ensures { MatchesListed rules.now header.now out.old result
        out.new }
{
    if scan_count(rules) <= out.len() {
        return Ok(store_matches(rules, header, out));
    }
    let needed = store_matches(rules, header, &mut out[..0]);
    if out.len() < needed {
        return Err(Refusal::OutputShort { needed, output: 0 });
    }
    Ok(store_matches(rules, header, out))
}

// Stores the numbers of the rules that match as far as there is room, and says how many match.
fn store_matches(rules: &[u32], header: &[u32], out: &mut [u32]) -> usize
    requires { length header.now ≡ field_count }
    ensures { MatchesKept rules.now header.now out.old result out.new }
{
    let count = scan_count(rules);
    let mut n = 0;
    for r in 0..count {
        if matches(rules, header, r) {
            store(out, n, r as u32);
            n += 1;
        }
    }
    n
}

// The first match and its action.
fn first_match(rules: &[u32], header: &[u32]) -> Option<Hit>
    requires { length header.now ≡ field_count }
    ensures { FirstIs rules.now header.now (Ok result) }
{
    let count = scan_count(rules);
    for r in 0..count {
        if matches(rules, header, r) {
            return Some(Hit {
                number: r as u32,
                action: action_of(rules, r),
            });
        }
    }
    None
}

// How many rules are looked at: those that are whole, as far as a word of 32 bits can number them.
fn scan_count(rules: &[u32]) -> usize
    ensures { result ≡ scan_count rules.now }
{
    (rules.len() / RULE_WORDS).min(MOST_SCANNED)
}
