// Files and standard input.
ghost use Rattle.std.specs.Prelude.{◌≡◌, length};
ghost use Rattle.ledger.specs.Reads.{descriptor_of, not_negative, is_open, got_of, came, gave, Gets};
ghost use Rattle.ledger.specs.Ledger.{enter, opened, read, closed, standard_input};

use crate::entry::one_more;
use crate::handle::Handle;
use std::fs::File;
use std::io;
use std::io::{ErrorKind, Read};
use std::os::fd::AsRawFd;
use std::rt::Stdin;

// What a file is read by: the system's number for it.
#[derive(Clone, Copy)]
pub struct Descriptor {
    pub number: i32,
}

// What is read: a file that was asked for, or standard input. Other crates can read it only by what stands here.
#[derive(Drop)]
pub struct Source {
    held: Held,
}

#[derive(Drop)]
enum Held {
    NotOpened,
    Opened(File),
    Standard(Stdin),
}

// What one read gave. A read that fails is never taken for the end.
#[derive(Clone, Copy)]
pub enum Got {
    Failed,
    Ended,
    Bytes { count: usize },
}

// Opens the file at `path` for reading. A negative answer says that it was not opened.
pub fn open_file(ledger: &mut u64, handle: Handle, path: &[u8]) -> Source
    ensures { ledger.new ≡ enter ledger.old (opened path.now (descriptor_of result)) }
{
    *ledger = one_more(*ledger, path.len());
    Source {
        held: held_at(handle, path),
    }
}

// The file at `path`, if it could be opened. The library opens none whose path is not UTF-8.
fn held_at(handle: Handle, path: &[u8]) -> Held {
    let Ok(path) = str::from_utf8(path) else {
        return Held::NotOpened;
    };
    match File::open(&handle.rt, path) {
        Ok(file) => Held::Opened(file),
        Err(_) => Held::NotOpened,
    }
}

impl Source {
    // The number that it is read by.
    pub fn descriptor(&self) -> Descriptor
        ensures { result ≡ descriptor_of self.now }
    {
        let number = match &self.held {
            Held::NotOpened => -1,
            Held::Opened(file) => file.as_raw_fd(),
            Held::Standard(stdin) => stdin.as_raw_fd(),
        };
        Descriptor { number }
    }
}

impl Descriptor {
    // Whether the file was opened: the system's number is negative where it was not.
    pub fn is_open(self) -> bool
        ensures { result ≡ is_open self }
    {
        let number = self.number;
        open_number(number)
    }
}

// Whether a number is not negative.
fn open_number(number: i32) -> bool
    ensures { result ≡ not_negative number }
{
    number >= 0
}

// Standard input is open from the start.
pub fn standard_input(handle: Handle) -> Source
    ensures { descriptor_of result ≡ standard_input }
{
    Source {
        held: Held::Standard(handle.rt.stdin()),
    }
}

// One read, from the front of `part` on.
pub fn read_some(ledger: &mut u64, from: &Source, part: &mut [u8]) -> Got
    ensures ledger_after { ledger.new ≡ enter ledger.old
        (read (descriptor_of from.now) (length part.new) result (gave result part.new)) }
    ensures front { Gets part.new result }
{
    let answer = read_once(from, part);
    let got = got_of(answer, part);
    *ledger = one_more(*ledger, came(got));
    got
}

// A file that was not opened cannot be read.
fn read_once(from: &Source, part: &mut [u8]) -> io::Result<usize> {
    match &from.held {
        Held::NotOpened => Err(io::Error::from(ErrorKind::NotFound)),
        Held::Opened(file) => {
            let mut file = file;
            file.read(part)
        }
        Held::Standard(stdin) => {
            let mut stdin = stdin;
            stdin.read(part)
        }
    }
}

// What the answer of a read into `part` says.
fn got_of(answer: io::Result<usize>, part: &[u8]) -> Got
    ensures { result ≡ got_of answer (length part.now) }
{
    let Ok(count) = answer else {
        return Got::Failed;
    };
    let count = count.min(part.len());
    if count == 0 {
        return Got::Ended;
    }
    Got::Bytes { count }
}

// How many bytes came.
fn came(got: Got) -> usize
    ensures { result ≡ came got }
{
    match got {
        Got::Failed => 0,
        Got::Ended => 0,
        Got::Bytes { count } => count,
    }
}

// Lets the file go.
pub fn close_file(ledger: &mut u64, from: Source)
    ensures { ledger.new ≡ enter ledger.old (closed (descriptor_of from)) }
{
    *ledger = one_more(*ledger, 0);
    drop(from);
}
