// Reading text into records that the caller lends.
ghost use Rattle.std.specs.Prelude.{◌≡◌, ◌≤◌, ◌++◌, map, length, drop};
ghost use Rattle.sheet.specs.First.{first_place};
ghost use Rattle.trace.specs.Text.{line_count, lines_of, malformed, command_at};
ghost use Rattle.trace.specs.Reading.{read_number, read_place, read_told, reading, records_after, ReadOnlySo, ReadsBack};

use crate::cutting::{LINE, line_count};
use crate::line::read_line;
use rulebook::command::Command;

// Why text is not read; the first reason in this order is answered.
#[derive(Clone, Copy, Debug, PartialEq, Eq)]
pub enum ReadRefusal {
    // Fewer records are lent than the text has lines.
    Records,
    // The line of this number is malformed, and none before it.
    Malformed(usize),
}

impl ReadRefusal {
    // The number of the refusal. It has a name and is no `From`: `u8::from` would not say that it is the listed number.
    pub fn number(self) -> u8
        ensures { result ≡ read_number self }
    {
        match self {
            ReadRefusal::Records => 15,
            ReadRefusal::Malformed(_) => 16,
        }
    }

    // The line that it carries.
    pub fn line(self) -> Option<usize>
        ensures { result ≡ read_place self }
    {
        match self {
            ReadRefusal::Records => None,
            ReadRefusal::Malformed(line) => Some(line),
        }
    }
}

// Reads line k into record k, and answers the count of lines. Records behind the lines stay as they are, and all do where it is refused.
// The records are lent and the answer counts them: by a rule of the project (docs/DECISIONS.md) nothing is allocated.
pub fn read_lines(text: &[u8], records: &mut [Command]) -> Result<usize, ReadRefusal>
    ensures answer { read_told result ≡ reading (length records.old) text.now }
    ensures contents { records.new ≡ records_after text.now result records.old }
    ensures only_so { ReadOnlySo text.now result records.new }
    ensures reads_back { ReadsBack text.now records.old result records.new }
{
    read_checked(text, records)
}

// Looks at every line before the first record is written; a function of its own, so that a wrong decision is refused here and the laws are added by its caller.
fn read_checked(text: &[u8], records: &mut [Command]) -> Result<usize, ReadRefusal>
    ensures answer { read_told result ≡ reading (length records.old) text.now }
    ensures contents { records.new ≡ records_after text.now result records.old }
{
    let count = line_count(text);
    if records.len() < count {
        return Err(ReadRefusal::Records);
    }
    if let Some(line) = first_malformed(text) {
        return Err(ReadRefusal::Malformed(line));
    }
    fill_records(text, records);
    Ok(count)
}

// The number of the first malformed line; a function of its own, so that its caller has the clause.
fn first_malformed(text: &[u8]) -> Option<usize>
    ensures { result ≡ first_place malformed (lines_of text.now) }
{
    text.chunks(LINE).position(|line| read_line(line).is_none())
}

// Record k from line k, for each line.
// The record is named by k: what a loop writes through `iter_mut` in a `zip` no proof knows behind the loop.
fn fill_records(text: &[u8], records: &mut [Command])
    requires { line_count text.now ≤ length records.old }
    ensures { records.new ≡ map command_at (lines_of text.now) ++ drop (line_count text.now) records.old }
{
    for (k, line) in text.chunks(LINE).enumerate() {
        records[k] = command_at(line);
    }
}

// The command of a line; one that nothing is said of where the line is malformed.
#[tactic(auto, unfolding(crate::specs::Text::command_at))]
fn command_at(line: &[u8]) -> Command
    ensures { result ≡ command_at line.now }
{
    read_line(line).unwrap_or_default()
}
