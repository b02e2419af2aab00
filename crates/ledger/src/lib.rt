// What the programs ask of the system, and the ledger: a number that goes through all of it. Six functions here ask the
// system and enter it. No other code of the programs asks it: `main` gives its runtime away in a `Handle`, and no other
// crate can take it out again, nor read what is open. No contract can say what a call does. So these functions are to be
// read, and each is caught by a run if it is wrong; what is asked for, in which order, and what is made of the answers,
// is proved above them.
//   input::open_file        a file, by its path
//   input::standard_input   what standard input is read by
//   input::read_some        one read
//   input::close_file       the file is let go
//   output::write_out       bytes to standard output
//   arguments::argument_count    how many arguments there are
//   arguments::argument     one of them
//   handle::Handle          what the system is asked by
// Each takes any words and bytes. Rests on facts.
#![tactic(auto)]

pub mod arguments;
mod entry;
pub mod handle;
pub mod input;
pub mod output;
