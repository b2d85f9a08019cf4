// Judging text line by line. Nothing is stored of it but the book, so nothing is allocated.
ghost use Rattle.checker.specs.Judging.{JudgedLines, JudgedLine};

use crate::refusals::TextRefusal;
use rulebook::book::Book;
use sheet::Board;
use trace::cutting::{LINE, line_count};
use trace::line::read_line;

// The count of lines, if all are well formed and their commands obey the rule book; else the first that is not or does not, and the smallest rule it breaks.
pub fn judge_lines(board: &Board, text: &[u8]) -> Result<usize, TextRefusal>
    ensures { JudgedLines board.now.sheet board.now.chip text.now result }
{
    let mut book = Book::new();
    for (line, bytes) in text.chunks(LINE).enumerate() {
        judge_line(board, &mut book, line, bytes)?;
    }
    Ok(line_count(text))
}

// One line, after those that the book has taken in.
fn judge_line(board: &Board, book: &mut Book, line: usize, bytes: &[u8]) -> Result<(), TextRefusal>
    ensures { JudgedLine board.now.sheet board.now.chip book.old line bytes.now result book.new }
{
    let command = read_line(bytes).ok_or(TextRefusal::Malformed(line))?;
    book.admit(board, command)
        .map_err(|rule| TextRefusal::Broken(line, rule))
}
