// The line that is being gathered from input bytes, as a struct by value.
ghost use Rattle.std.specs.Prelude.{◌≡◌, []};
ghost use Rattle.text.specs.Words.{newline};
ghost use Rattle.text.specs.Text.{no_line, next_from};
ghost use Rattle.console.specs.Gathered.{begun, step, after};

use crate::head::MOST_BYTES;
use text::place::following;

// The bytes held; how many, a line that is too long having one more than the most; and the whole lines before it.
#[derive(Clone, Copy)]
pub struct Gathering {
    pub held: [u8; MOST_BYTES],
    pub count: usize,
    pub lines: usize,
}

impl Gathering {
    // Before the first byte.
    pub fn start() -> Gathering
        ensures { result ≡ begun }
    {
        Gathering {
            held: [0; MOST_BYTES],
            count: 0,
            lines: 0,
        }
    }

    // After bytes without a newline. Those that make the line too long are not looked at.
    pub(crate) fn with_bytes(self, bytes: &[u8]) -> Gathering
        requires { next_from [] bytes.now ≡ no_line }
        ensures { result ≡ after self bytes.now }
    {
        let lines = self.lines;
        let mut held = self.held;
        let mut count = self.count;
        for byte in bytes {
            if MOST_BYTES <= count {
                return Gathering {
                    held,
                    count: MOST_BYTES + 1,
                    lines,
                };
            }
            held[count] = *byte;
            count += 1;
        }
        Gathering { held, count, lines }
    }

    // After a newline, behind which the next line begins.
    pub(crate) fn next_line(self) -> Gathering
        ensures { result ≡ step self newline }
    {
        let held = self.held;
        Gathering {
            held,
            count: 0,
            lines: following(self.lines),
        }
    }
}
