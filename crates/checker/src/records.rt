// Judging command records that the caller lends.
ghost use Rattle.checker.specs.Judging.{Judged, JudgedRecord};

use crate::refusals::RecordRefusal;
use rulebook::book::Book;
use rulebook::command::Command;
use sheet::Board;
use trace::line::is_proper;

// A loop of its own beside that over lines: an improper record and a malformed line are found by different tests and told by different refusals.
// The count of records, if all are proper and obey the rule book; else the first that is not or does not, and the smallest rule it breaks.
pub fn judge_records(board: &Board, records: &[Command]) -> Result<usize, RecordRefusal>
    ensures { Judged board.now.sheet board.now.chip records.now result }
{
    let mut book = Book::new();
    for (line, command) in records.iter().enumerate() {
        judge_record(board, &mut book, line, *command)?;
    }
    Ok(records.len())
}

// One record, after those that the book has taken in.
fn judge_record(
    board: &Board,
    book: &mut Book,
    line: usize,
    command: Command,
) -> Result<(), RecordRefusal>
    ensures { JudgedRecord board.now.sheet board.now.chip book.old line command result book.new }
{
    if !is_proper(command) {
        return Err(RecordRefusal::Improper(line));
    }
    book.admit(board, command)
        .map_err(|rule| RecordRefusal::Broken(line, rule))
}
