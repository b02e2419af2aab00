// One header and one box: what bounds each field, prefixes, ranges, ports, fields of rules, boxes that meet, and cuts.
//   header::header_verdict     whether a header is legal: 3
//   prefix::prefix_good        whether an address and a length make a good prefix
//   prefix::prefix_agrees      whether the first bits of a word are those of a prefix
//   prefix::prefix_meets       whether the range of a prefix meets another range
//   range::range_good          whether two ends make a good range
//   range::range_holds         whether a word lies in a range
//   range::ranges_meet         whether two ranges meet
//   field::field_good          whether a field of a rule, a prefix, a range or a range of ports, is good
//   field::field_matches       whether a word matches it
//   field::field_bounds        the ends of its range
//   field::field_meets         whether its range meets another
//   bounds::root_box           the box of every legal header
//   bounds::divides            whether a value divides a box in a field
//   bounds::left_part          what a cut leaves its left child
//   bounds::right_part         what a cut leaves its right child
// Each takes any words. Rests on facts and refusals.
#![tactic(auto)]

pub mod bounds;
pub mod field;
pub mod header;
pub mod port;
pub mod prefix;
pub mod range;
