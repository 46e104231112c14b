// What the cases programs share: standard input as lines of words, and what prints alike.
//
// - A line is a keyword and its fields, each after one blank. The keyword's first letter tells what is to be done.
// - Numbers are decimal.
// - Bytes are hexadecimal, two digits each, in words of any length: `0d00` is `0d 00`, and `3*0d00` is that three times.
// - A line that begins with `"` is printed without it, and the next line's answer goes on behind it.
// - A line that is empty or begins with `#` is a comment.
//
// What cannot be read prints `bad line`, so that it shows where the output is compared. Of an input the first 65,536 bytes are read.
#![tactic(auto)]

mod fields;
mod print;
mod reading;

pub use fields::{digit, value};
pub use print::Listed;
pub use reading::{Line, ends_line, first, first_line, input, lines};
