// What the programs do with the system: files are read, standard input is answered, refusals are told. All of it goes
// through the ledger, so that what is asked of the system, in which order, and what is made of its answers, is proved.
//   arguments::number_told    the number that the first argument says
//   load::load                a file into a lent buffer, whole or not at all
//   out::say                  bytes to standard output
//   out::say_verdict          the line of a refusal, to standard output
//   serve::serve              the lines of standard input, answered: which rules match their headers
//   serve::serve_why          the same: why one rule misses their headers
// Each takes any words and bytes. Rests on facts, refusals, text, console, policy and ledger.
#![tactic(auto)]

pub mod arguments;
pub mod load;
pub mod out;
pub mod serve;
