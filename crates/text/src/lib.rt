// The bytes of a text: fixed words, decimal numbers, addresses and whole lines, read by a cursor and written to lent
// bytes. Both files and the program's input are lines of this kind: a word, and numbers, each behind its separator.
//   cursor::Cursor::line_end, whole, line          the next newline; all that is left, as a line; the next line
//   cursor::Cursor::fields, number_behind, end     its parts: the word and its numbers; one number; nothing more
//   put::put_line, put_fields, put_numbers         the same, written as far as there is room
//   put::put_bytes, put_behind, put_wide, put      its parts: a word; a number behind a separator; one byte
//   end::end_line, put_end                         the end line of a file, read and written
//   cursor::wrong                                  the refusal of a wrong line
//   place::following, within                       the next place or count; a place that is kept within a size
//   address::octets_fit, address_of                the address of four octets
//   words                                          the fixed words and separators
// Each takes any bytes and any places. Rests on facts, lent and refusals.
#![tactic(auto)]

pub mod address;
pub mod cursor;
pub mod end;
pub mod place;
pub mod put;
pub mod words;
