// The programs' lines: a head line in, a hit, a miss or a refusal out, on lent bytes; and how input bytes become lines.
//   head::head_in              the header that an input line asks about
//   say::refused_line          the line of a refusal: 4
//   reply::reply               the reply to one input line, by the list or by a tree: 4
//   gather::Gathering          the line that is being gathered: start
//   feed::feed                 the replies to a piece of input, as far as there is room; the list is judged once
//   feed::feed_why             the same where the lines ask why one rule misses their headers
//   feed::last_reply           the reply to a last part without newline: 4
// Each takes any words and bytes. By an accepted tree the replies are those by the list, and however the input is cut
// into pieces they are the same. Rests on facts, refusals, fields, rules, trees, tree_check, text and rule_file.
#![tactic(auto)]

pub mod feed;
pub mod gather;
pub mod head;
mod judge;
pub mod reply;
pub mod say;
