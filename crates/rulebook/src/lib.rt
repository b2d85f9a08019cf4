// The rule book of a DDR3 chip: commands, sixteen rules over a whole trace, and a record that keeps only what the rules still need of it.
#![tactic(auto)]

mod bank; // what is kept of one bank, and of the last four activates
pub mod book; // the compact record of a trace: taking a command in, or naming the smallest rule that it breaks
pub mod command; // the kinds of command, and a command
pub mod gap; // whether a gap has passed
pub mod laws; // what callers may count on of the rules, as one contract
pub mod rule; // the sixteen rules and their numbers

pub use book::Book;
pub use command::{Command, Kind, UnknownKind};
pub use rule::Rule;
