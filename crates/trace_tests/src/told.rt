// Answers as plain numbers, to compare them by, and what stands where nothing is written.
use rulebook::command::{Command, Kind};
use std::fmt::Debug;
use std::process::Abort;
use trace::reading::ReadRefusal;
use trace::writing::WriteRefusal;

// A record that no text here stands for, to see what stays untouched.
pub(crate) const MARK: Command = Command {
    cycle: 99,
    kind: Kind::Write,
    bank: 200,
    row: 77,
    column: 5_000,
    requester: 88,
    number: 66,
};

// A byte that no line has.
pub(crate) const INK: u8 = 170;

// Each of the items is still what it was.
pub(crate) fn check_each<T: Copy + Debug + PartialEq>(rt: &impl Abort, items: &[T], was: T) {
    for item in items {
        assert_eq!(rt; *item, was);
    }
}

// What is told of a count that is answered.
fn taken(count: usize) -> (u8, Option<usize>) {
    (0, Some(count))
}

// What reading answers: 0 and the count of lines, or the refusal's number and the line that it carries.
pub(crate) fn read_told(answer: Result<usize, ReadRefusal>) -> (u8, Option<usize>) {
    answer.map_or_else(|why| (why.number(), why.line()), taken)
}

// What writing answers: 0 and the count of lines, or the refusal's number and the record that it carries.
// One function for both would need a trait over the refusals, as one carries a line and the other a record, and be no shorter.
pub(crate) fn write_told(answer: Result<usize, WriteRefusal>) -> (u8, Option<usize>) {
    answer.map_or_else(|why| (why.number(), why.record()), taken)
}
