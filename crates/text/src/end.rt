// The end line of a file: `end` and the number of lines before it. Nothing stands after it.
ghost use Rattle.std.specs.Prelude.{◌≡◌};
ghost use Rattle.text.specs.Line.{ended};
ghost use Rattle.text.specs.Puts.{Put};
ghost use Rattle.text.specs.EndLines.{end_line, end_line_at};

use crate::cursor::{Cursor, wrong};
use crate::put::put_line;
use crate::words::{END, ONE_TAB};
use refusals::Refusal;

// The end line, which has the number of lines before it, and nothing after it. Where what stands before it is not
// complete, any end line is wrong.
pub fn end_line(text: &[u8], here: Cursor, complete: bool, before: usize) -> Result<(), Refusal>
    ensures { result ≡ end_line_at text.now here complete before }
{
    let read = here.line(text, &END, &ONE_TAB)?;
    if !complete {
        return Err(wrong(here.lines));
    }
    if read.values[0] as usize != before {
        return Err(wrong(here.lines));
    }
    let next = read.next;
    if next.at < text.len() {
        return Err(wrong(next.lines));
    }
    Ok(())
}

// The end line of a text, which has `before` lines before it.
pub fn put_end(out: &mut [u8], at: usize, before: u32) -> usize
    ensures { Put out.old at (ended (end_line before)) out.new result }
{
    let values = [before];
    put_line(out, at, &END, &ONE_TAB, &values)
}
