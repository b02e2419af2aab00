// A file into the buffer: whole, or not at all.
ghost use Rattle.std.specs.Prelude.{◌≡◌, length};
ghost use Rattle.ledger.specs.Reads.{descriptor_of};
ghost use Rattle.ledger.specs.Ledger.{Enters};
ghost use Rattle.policy.specs.Files.{text_in};
ghost use Rattle.system.specs.Files.{ReadFits, no_reads, next_reads, last_reads, more_reads, file_of};
ghost use Rattle.system.specs.Files.{ReadToEnd, ReadPast, FileLoaded};

use ledger::handle::Handle;
use ledger::input::{Got, Source, close_file, open_file, read_some};

// The file with the list of rules, in the folder where a program is started.
pub const RULES_FILE: [u8; 9] = *b"rules.txt";

// The reads of a file so far: how many bytes stand in front of the buffer, and what the last read gave.
#[derive(Clone, Copy)]
pub struct Reads {
    pub done: usize,
    pub last: Got,
}

// Reads the file at `path` to its end, and closes it. Its bytes stand in front of the buffer.
pub fn load(ledger: &mut u64, handle: Handle, path: &[u8], buffer: &mut [u8]) -> Option<usize>
    ensures { Enters
        (FileLoaded (length buffer.new) path.now (text_in result buffer.new))
        ledger.old ledger.new }
{
    let from = open_file(ledger, handle, path);
    if !from.descriptor().is_open() {
        return None;
    }
    let reads = read_on(ledger, &from, buffer);
    close_file(ledger, from);
    reads.file()
}

// Reads until a read gives no more bytes, or the buffer is full. A short read is not the end; and of a full buffer one
// more read says whether anything follows.
fn read_on(ledger: &mut u64, from: &Source, buffer: &mut [u8]) -> Reads
    ensures { Enters (ReadToEnd (descriptor_of from.now) (length buffer.new) (text_in (file_of result) buffer.new))
        ledger.old ledger.new }
{
    let mut reads = Reads::start();
    // A read gives as many bytes as the system has, so that no count of reads is known.
    while reads.done < buffer.len() && reads.more() {
        let done = reads.done;
        reads = reads.next(read_some(ledger, from, &mut buffer[done..]));
    }
    if reads.more() {
        reads = reads.past(read_next(ledger, from));
    }
    reads
}

// One read of a byte that may follow.
fn read_next(ledger: &mut u64, from: &Source) -> Got
    ensures { Enters (ReadPast (descriptor_of from.now) result) ledger.old ledger.new }
{
    let mut next = [0u8; 1];
    read_some(ledger, from, &mut next)
}

impl Reads {
    // Before the first read.
    fn start() -> Reads
        ensures { result ≡ no_reads }
    {
        Reads {
            done: 0,
            last: Got::Bytes { count: 0 },
        }
    }

    // After one read more.
    fn next(self, got: Got) -> Reads
        requires { ReadFits self.done got }
        ensures { result ≡ next_reads self got }
    {
        let done = self.done;
        match got {
            Got::Failed => Reads { done, last: got },
            Got::Ended => Reads { done, last: got },
            Got::Bytes { count } => Reads {
                done: done + count,
                last: got,
            },
        }
    }

    // After one read past the buffer: what it gave is not in it.
    fn past(self, got: Got) -> Reads
        ensures { result ≡ last_reads self got }
    {
        Reads {
            done: self.done,
            last: got,
        }
    }

    // Whether more may follow: the last read gave bytes.
    fn more(self) -> bool
        ensures { result ≡ more_reads self }
    {
        let last = self.last;
        match last {
            Got::Failed => false,
            Got::Ended => false,
            Got::Bytes { count: _ } => true,
        }
    }

    // What the file is: whole only where the last read gave the end. Bytes that follow a full buffer are too many.
    fn file(self) -> Option<usize>
        ensures { result ≡ file_of self }
    {
        let last = self.last;
        match last {
            Got::Failed => None,
            Got::Ended => Some(self.done),
            Got::Bytes { count: _ } => None,
        }
    }
}
