// The text that `judge` prints for a sheet line and a trace.
ghost use Rattle.std.specs.Prelude.{take, drop, Some, IfOk, string_bytes};
ghost use Rattle.report.specs.Judging.{people_text, GapAt, GapTold, JudgedAloud};

use crate::gaps::{Near, missing_gap};
use checker::judging::judge_text;
use checker::packing::pack;
use checker::refusals::TextRefusal;
use rulebook::rule::Rule;
use std::alloc::{AllocError, Global};
use std::fmt;
use trace::board::read_board;

// The bytes of the sheet line, which come first.
const SHEET_LINE: usize = 120;

// An answer, with the gap that is missing where it is a line that breaks a gap rule.
#[derive(Clone, Copy)]
struct Verdict {
    answer: Result<usize, TextRefusal>,
    near: Option<Near>,
}

// A verdict is shown as the line for people.
impl fmt::Display for Verdict {
    ghost output = { λ v. Some (people_text v.answer v.near) };

    fn fmt<W: fmt::Write>(&self, f: &mut fmt::Formatter<W>) -> fmt::Result {
        match (self.answer, self.near) {
            (Ok(count), _) => write!(f, "passes: {count} commands\n"),
            (Err(why @ TextRefusal::Broken(_, _)), Some(near)) => write!(f, "{why}{near}\n"),
            (Err(why), _) => write!(f, "{why}\n"),
        }
    }
}

// The text for an input of one sheet line and the trace behind it; a shorter input is judged as a sheet line with no trace.
pub fn judging_text(heap: Global, input: &[u8]) -> Result<String, AllocError>
    ensures { IfOk result (λ t. JudgedAloud (take 120 input.now) (drop 120 input.now) (string_bytes t)) }
{
    let (sheet_line, text) = input.split_at_checked(SHEET_LINE).unwrap_or((input, &[]));
    told_text(heap, sheet_line, text)
}

// Judges once, and tells the answer for people and packed.
fn told_text(heap: Global, sheet_line: &[u8], text: &[u8]) -> Result<String, AllocError>
    ensures { IfOk result (λ t. JudgedAloud sheet_line.now text.now (string_bytes t)) }
{
    let answer = judge_text(sheet_line, text);
    let near = gap_told(sheet_line, text, answer);
    let verdict = Verdict { answer, near };
    let packed = pack(answer);
    format!(in heap; "{verdict}{packed:016X}\n")
}

// The gap that is missing, where the answer is a line that breaks a gap rule.
fn gap_told(sheet_line: &[u8], text: &[u8], answer: Result<usize, TextRefusal>) -> Option<Near>
    ensures { GapTold sheet_line.now text.now answer result }
{
    match answer {
        Err(TextRefusal::Broken(line, rule)) => gap_at(sheet_line, text, line, rule),
        _ => None,
    }
}

// The gap that is missing at a line, by the sheet of the sheet line. The two texts, and line and rule, are handed on as they come: a type for either pair would only be taken apart.
fn gap_at(sheet_line: &[u8], text: &[u8], line: usize, rule: Rule) -> Option<Near>
    ensures { GapAt sheet_line.now text.now line rule result }
{
    let board = read_board(sheet_line).ok()?;
    missing_gap(&board.sheet, text, line, rule)
}
