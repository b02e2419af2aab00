// The cursor: where a reader stands in a lent text. Its methods take it by value and hand back the next cursor with
// what was read, or the refusal of the line it stands in.
ghost use Rattle.std.specs.Prelude.{◌≤◌, ◌≡◌, length};
ghost use Rattle.text.specs.Cursors.{wrong_at, digits_at, number_at, behind_at, word_at, marks_at, end_at};
ghost use Rattle.text.specs.Cursors.{fields_at, whole_at, line_end_at, line_at};

use crate::place::{following, within};
use crate::words::{MOST_FIELDS, NEWLINE};
use lent::store;
use refusals::Refusal;

// A place in the text, and the whole lines before it.
#[derive(Clone, Copy)]
pub struct Cursor {
    pub at: usize,
    pub lines: usize,
}

// The numbers of a line, 0 for those that it does not have, and the cursor behind them.
#[derive(Clone, Copy)]
pub struct Fields {
    pub values: [u32; MOST_FIELDS],
    pub next: Cursor,
}

impl Cursor {
    // The next line, which must be the word with a number behind each separator, and the cursor behind its newline.
    pub fn line(self, text: &[u8], word: &[u8], marks: &[u8]) -> Result<Fields, Refusal>
        ensures { result ≡ line_at text.now self word.now marks.now }
    {
        let end = self.line_end(text)?;
        self.whole(&text[..end], word, marks)
    }

    // The next newline. It is looked for before the line is judged: a last part without one is not read.
    pub fn line_end(self, text: &[u8]) -> Result<usize, Refusal>
        ensures { result ≡ line_end_at text.now self }
    {
        let lines = self.lines;
        for end in self.at..text.len() {
            if text[end] == NEWLINE {
                return Ok(end);
            }
        }
        Err(Refusal::TextStops { lines })
    }

    // All that is left, as a line without its newline, and the cursor behind the newline that follows.
    pub fn whole(self, text: &[u8], word: &[u8], marks: &[u8]) -> Result<Fields, Refusal>
        ensures { result ≡ whole_at text.now self word.now marks.now }
    {
        let read = self.fields(text, word, marks)?;
        let next = read.next.end(text)?;
        let values = read.values;
        Ok(Fields { values, next })
    }

    // The word, and a number behind each separator.
    pub fn fields(self, text: &[u8], word: &[u8], marks: &[u8]) -> Result<Fields, Refusal>
        ensures { result ≡ fields_at text.now self word.now marks.now }
    {
        let from = Cursor {
            at: within(self.at, text.len()),
            lines: self.lines,
        };
        from.word(text, word)?.numbers(text, marks)
    }

    // The bytes of a word.
    fn word(self, text: &[u8], word: &[u8]) -> Result<Cursor, Refusal>
        requires { self.at ≤ length text.now }
        ensures { result ≡ word_at text.now self word.now }
    {
        let lines = self.lines;
        if !text[self.at..].starts_with(word) {
            return Err(wrong(lines));
        }
        let at = self.at + word.len();
        Ok(Cursor { at, lines })
    }

    // A number behind each separator.
    fn numbers(self, text: &[u8], marks: &[u8]) -> Result<Fields, Refusal>
        requires { self.at ≤ length text.now }
        ensures { result ≡ marks_at text.now self marks.now }
    {
        let lines = self.lines;
        let mut at = self.at;
        let mut values = [0u32; MOST_FIELDS];
        for (i, mark) in marks.iter().enumerate() {
            let c = Cursor { at, lines };
            let (v, d) = c.number_behind(text, *mark)?;
            store(&mut values, i, v);
            at = d.at;
        }
        Ok(Fields {
            values,
            next: Cursor { at, lines },
        })
    }

    // A separator and the number behind it.
    pub fn number_behind(self, text: &[u8], mark: u8) -> Result<(u32, Cursor), Refusal>
        ensures { result ≡ behind_at text.now self mark }
    {
        let at = self.at;
        let lines = self.lines;
        if text.len() <= at {
            return Err(wrong(lines));
        }
        if text[at] != mark {
            return Err(wrong(lines));
        }
        let c = Cursor { at: at + 1, lines };
        c.number(text)
    }

    // A decimal number of 32 bits without leading zeros.
    fn number(self, text: &[u8]) -> Result<(u32, Cursor), Refusal>
        ensures { result ≡ number_at text.now self }
    {
        let at = self.at;
        let lines = self.lines;
        if text.len() <= at {
            return Err(wrong(lines));
        }
        let first = text[at];
        if !first.is_ascii_digit() {
            return Err(wrong(lines));
        }
        if first == b'0' {
            return Ok((0, Cursor { at: at + 1, lines }));
        }
        self.digits(text)
    }

    // The number that the digits from here on make.
    fn digits(self, text: &[u8]) -> Result<(u32, Cursor), Refusal>
        requires { self.at ≤ length text.now }
        ensures { result ≡ digits_at text.now self }
    {
        let lines = self.lines;
        let mut value: u64 = 0;
        for at in self.at..text.len() {
            let byte = text[at];
            if !byte.is_ascii_digit() {
                return Ok((value as u32, Cursor { at, lines }));
            }
            value = value * 10 + u64::from(byte - b'0');
            if u64::from(u32::MAX) < value {
                return Err(wrong(lines));
            }
        }
        let at = text.len();
        Ok((value as u32, Cursor { at, lines }))
    }

    // Nothing more in the line; the next one begins behind the newline that follows.
    pub fn end(self, text: &[u8]) -> Result<Cursor, Refusal>
        ensures { result ≡ end_at text.now self }
    {
        let at = self.at;
        let lines = self.lines;
        if at < text.len() {
            return Err(wrong(lines));
        }
        Ok(Cursor {
            at: text.len() + 1,
            lines: following(lines),
        })
    }
}

// The refusal of a line that has `lines` whole lines before it.
pub fn wrong(lines: usize) -> Refusal
    ensures { result ≡ wrong_at lines }
{
    Refusal::LineWrong {
        line: following(lines),
    }
}
