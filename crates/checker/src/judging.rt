// Judging a trace as text, by the sheet and chip of a sheet line.
ghost use Rattle.std.specs.Prelude.{◌^◌, ◌<◌};
ghost use Rattle.checker.specs.Judging.{JudgedText};
ghost use Rattle.checker.specs.Packing.{low_part};

use crate::refusals::TextRefusal;
use crate::texts::judge_lines;
use trace::board::read_board;

// The longest text that is judged, in bytes.
const LONGEST: usize = 1_073_741_824;

// The count of lines, if the trace passes; else the first reason against it.
pub fn judge_text(sheet_line: &[u8], text: &[u8]) -> Result<usize, TextRefusal>
    ensures judged { JudgedText sheet_line.now text.now result }
    ensures small { low_part result < 2 ^ 48 }
{
    judge_by_line(sheet_line, text)
}

// By the board that the sheet line gives; a function of its own, so that a wrong decision is refused here and the bound is added by its caller.
fn judge_by_line(sheet_line: &[u8], text: &[u8]) -> Result<usize, TextRefusal>
    ensures { JudgedText sheet_line.now text.now result }
{
    if text.len() > LONGEST {
        return Err(TextRefusal::TooLong);
    }
    let board = read_board(sheet_line)?;
    judge_lines(&board, text)
}
