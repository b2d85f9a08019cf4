// The sheet and the chip that a sheet line gives, or the first reason against them.
ghost use Rattle.std.specs.Prelude.{◌≡◌, Some};
ghost use Rattle.trace.specs.Board.{board_number, board_place, refusal_text, board_told, board_made};
ghost use Rattle.trace.specs.declared.board.BoardRefusal.TheVariants.{Sheet as OfSheet, Chip as OfChip};

use crate::sheet_line::read_sheet_line;
use sheet::{Board, Chip, ChipRefusal, Sheet, SheetRefusal};
use std::fmt;

// Why a line gives no sheet and chip: the line is looked at first, then the sheet, then the chip.
#[derive(Clone, Copy, Debug, PartialEq, Eq)]
pub enum BoardRefusal {
    // The bytes are no sheet line.
    Malformed,
    Sheet(SheetRefusal),
    Chip(ChipRefusal),
}

// A sheet's refusal refuses the board.
impl From<SheetRefusal> for BoardRefusal {
    ghost from_gives = { λ why refusal. refusal ≡ OfSheet why };

    fn from(of_sheet: SheetRefusal) -> BoardRefusal {
        BoardRefusal::Sheet(of_sheet)
    }
}

// So does a chip's.
impl From<ChipRefusal> for BoardRefusal {
    ghost from_gives = { λ why refusal. refusal ≡ OfChip why };

    fn from(of_chip: ChipRefusal) -> BoardRefusal {
        BoardRefusal::Chip(of_chip)
    }
}

impl BoardRefusal {
    // The number of the refusal. It has a name and is no `From`: `u8::from` would not say that it is the listed number.
    pub fn number(self) -> u8
        ensures { result ≡ board_number self }
    {
        match self {
            BoardRefusal::Malformed => 20,
            BoardRefusal::Sheet(why) => why.number(),
            BoardRefusal::Chip(why) => why.number(),
        }
    }

    pub fn place(self) -> Option<usize>
        ensures { result ≡ board_place self }
    {
        match self {
            BoardRefusal::Sheet(why) => why.place(),
            BoardRefusal::Malformed | BoardRefusal::Chip(_) => None,
        }
    }
}

// A refusal is shown by its number, and the place that it carries. Of all refusals a board's and a text's are shown, since these are printed.
impl fmt::Display for BoardRefusal {
    ghost output = { λ why. Some (refusal_text why) };

    fn fmt<W: fmt::Write>(&self, f: &mut fmt::Formatter<W>) -> fmt::Result {
        let number = self.number();
        match self.place() {
            Some(place) => write!(f, "refused {number} at {place}"),
            None => write!(f, "refused {number}"),
        }
    }
}

// The sheet and the chip of a sheet line.
pub fn read_board(line: &[u8]) -> Result<Board, BoardRefusal>
    ensures { board_told result ≡ board_made line.now }
{
    let fields = read_sheet_line(line).ok_or(BoardRefusal::Malformed)?;
    let sheet = Sheet::new(fields.period, fields.timings)?;
    let chip = Chip::new(fields.banks, fields.rows, fields.columns)?;
    Ok(Board { sheet, chip })
}
