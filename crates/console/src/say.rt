// The lines that the program writes. Each is counted first, on no room at all, and then put if there is room for it.
ghost use Rattle.std.specs.Prelude.{◌≤◌, ◌∷◌, length};
ghost use Rattle.rules.specs.Words.{most_rules};
ghost use Rattle.text.specs.Words.{tab};
ghost use Rattle.text.specs.Puts.{Put};
ghost use Rattle.text.specs.Said.{Said};
ghost use Rattle.console.specs.Lines.{refused_line, hit_line, most_refused};
ghost use Rattle.console.specs.MissLines.{name_of, miss_line};

use fields::header::FIELDS;
use refusals::{Refusal, extra_of, number_of, place_of};
use rule_file::piece::put_words;
use text::put::{put, put_bytes, put_numbers, put_wide};
use text::words::{
    DESTINATION, DESTINATION_PORT, HIT, MATCH, MISSES, NEWLINE, PROTOCOL, REFUSED, SOURCE,
    SOURCE_PORT, TAB,
};

// The line of a refusal, from the front of `out` on; the rest of `out` is as found.
pub fn refused_line(why: Refusal, out: &mut [u8]) -> Result<usize, Refusal>
    ensures said { Said (refused_line why) out.old result out.new }
    ensures short { length (refused_line why) ≤ most_refused }
{
    let needed = put_refused(why, &mut out[..0]);
    if out.len() < needed {
        return Err(Refusal::OutputShort { needed, output: 0 });
    }
    Ok(put_refused(why, out))
}

// The line of the numbers that match.
pub(crate) fn hit_line(numbers: &[u32], out: &mut [u8]) -> Result<usize, Refusal>
    requires { length numbers.now ≤ most_rules }
    ensures { Said (hit_line numbers.now) out.old result out.new }
{
    let needed = put_hit(numbers, &mut out[..0]);
    if out.len() < needed {
        return Err(Refusal::OutputShort { needed, output: 0 });
    }
    Ok(put_hit(numbers, out))
}

// The line that says which field of rule `rule` misses, or that the rule matches.
pub(crate) fn miss_line(
    rules: &[u32],
    rule: usize,
    field: usize,
    out: &mut [u8],
) -> Result<usize, Refusal>
    ensures { Said (miss_line rules.now rule field) out.old result out.new }
{
    let needed = put_miss(rules, rule, field, &mut out[..0]);
    if out.len() < needed {
        return Err(Refusal::OutputShort { needed, output: 0 });
    }
    Ok(put_miss(rules, rule, field, out))
}

// `refused`, number, place and extra; it answers how many bytes that makes.
fn put_refused(why: Refusal, out: &mut [u8]) -> usize
    ensures { Put out.old 0 (refused_line why) out.new result ×
        (length (refused_line why) ≤ most_refused) }
{
    let p = put_bytes(out, 0, &REFUSED);
    let q = put_wide(out, p, TAB, number_of(why));
    let r = put_wide(out, q, TAB, place_of(why));
    let s = put_wide(out, r, TAB, extra_of(why));
    put(out, s, NEWLINE)
}

// `hit`, how many, and the numbers.
fn put_hit(numbers: &[u32], out: &mut [u8]) -> usize
    ensures { Put out.old 0 (hit_line numbers.now) out.new result }
{
    let p = put_bytes(out, 0, &HIT);
    let q = put_wide(out, p, TAB, numbers.len() as u64);
    let r = put_numbers(out, q, numbers);
    put(out, r, NEWLINE)
}

// `match`; or `misses`, the number of the field, its name, and the rule's own words for it.
fn put_miss(rules: &[u32], rule: usize, field: usize, out: &mut [u8]) -> usize
    ensures { Put out.old 0 (miss_line rules.now rule field) out.new result }
{
    if FIELDS <= field {
        let p = put_bytes(out, 0, &MATCH);
        return put(out, p, NEWLINE);
    }
    let p = put_bytes(out, 0, &MISSES);
    let q = put_wide(out, p, TAB, field as u64);
    let r = put_name(field, out, q);
    let s = put_words(out, r, rules, rule, field);
    put(out, s, NEWLINE)
}

// The name of a field, behind a tab.
fn put_name(field: usize, out: &mut [u8], at: usize) -> usize
    ensures { Put out.old at (tab ∷ name_of field) out.new result }
{
    let p = put(out, at, TAB);
    match field {
        0 => put_bytes(out, p, &SOURCE),
        1 => put_bytes(out, p, &DESTINATION),
        2 => put_bytes(out, p, &SOURCE_PORT),
        3 => put_bytes(out, p, &DESTINATION_PORT),
        _ => put_bytes(out, p, &PROTOCOL),
    }
}
