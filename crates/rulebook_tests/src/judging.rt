// Making the sheet of an example, and judging a trace by a fresh book.
use rulebook::{Book, Command, Kind};
use sheet::{Board, Chip, Cycles, Picoseconds, Sheet, Timing};
use std::test::Fail;

// A line of a trace: cycle, kind, bank, row, column.
#[derive(Clone, Copy)]
pub struct Line(pub u32, pub Kind, pub u8, pub u16, pub u16);

// The line as a command of no particular request.
impl From<Line> for Command {
    fn from(line: Line) -> Command {
        let Line(cycle, kind, bank, row, column) = line;
        Command {
            cycle,
            kind,
            bank,
            row,
            column,
            ..Command::default()
        }
    }
}

// The board of a sheet of thirteen counts of cycles, and a chip of so many banks; or the failure where one is refused.
pub(crate) fn board_of(counts: &[u32; 13], banks: u32) -> Result<Board, Fail> {
    let timings = counts.map(|count| Timing::from(Cycles::new(count)));
    Ok(Board {
        sheet: Sheet::new(Picoseconds::new(1_250), timings)?,
        chip: Chip::new(banks, 1_024, 64)?,
    })
}

// Takes the lines in; the place of the first one refused, from 0, and the number of the rule that it breaks.
pub(crate) fn first_refused(book: &mut Book, board: &Board, lines: &[Line]) -> Option<(usize, u8)> {
    lines.iter().enumerate().find_map(|(place, line)| {
        let broken = book.admit(board, Command::from(*line)).err()?;
        Some((place, broken.number()))
    })
}
