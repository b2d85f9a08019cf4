// Lines of text: hexadecimal digits, fields read from the left, trace lines read and written, and the sheet line.
#![tactic(auto)]

pub mod board; // the sheet and the chip of a sheet line, or why there are none
pub mod cutting; // text as lines, cut every 27 bytes
pub mod digits; // the value of a digit, by a table
mod fields; // a field of a line, and the rest that follows
pub mod line; // one trace line and the command that it stands for
pub mod reading; // text read into lent records
pub mod sheet_line; // the line that gives a sheet and a chip, as its fields
pub mod writing; // commands written as lines into a lent buffer
