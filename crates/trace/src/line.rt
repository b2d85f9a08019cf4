// One trace line: 26 digits and a line feed. Cycle 8, kind 1, bank 1, row 4, column 3, requester 1, number 8.
ghost use Rattle.std.specs.Prelude.{◌≡◌};
ghost use Rattle.trace.specs.Fields.{ReadsThen};
ghost use Rattle.trace.specs.Line.{blank, proper, front_in, behind_front, back_in, command_in};

use crate::fields::{digits, is_feed};
use rulebook::command::{Command, Kind};

// The first fields of a line.
#[derive(Clone, Copy, Debug, PartialEq, Eq)]
pub(crate) struct Front {
    pub(crate) cycle: u32,
    pub(crate) kind: Kind,
    pub(crate) bank: u8,
    pub(crate) row: u16,
}

// The last fields of a line.
#[derive(Clone, Copy, Debug, PartialEq, Eq)]
pub(crate) struct Back {
    pub(crate) column: u16,
    pub(crate) requester: u8,
    pub(crate) number: u32,
}

// The command that a line stands for; none where it is malformed.
pub fn read_line(line: &[u8]) -> Option<Command>
    ensures { result ≡ command_in line.now }
{
    let (front, rest) = read_front(line)?;
    let back = read_back(rest)?;
    let command = Command {
        cycle: front.cycle,
        kind: front.kind,
        bank: front.bank,
        row: front.row,
        column: back.column,
        requester: back.requester,
        number: back.number,
    };
    is_blank(command).then_some(command)
}

// Cycle, kind, bank and row, and the bytes that follow them.
fn read_front(line: &[u8]) -> Option<(Front, &[u8])>
    ensures { ReadsThen (front_in line.now) (behind_front line.now) result }
{
    let (cycle, rest) = digits::<8>(line)?;
    let (kind, rest) = digits::<1>(rest)?;
    let kind = Kind::try_from(kind as u8).ok()?;
    let (bank, rest) = digits::<1>(rest)?;
    let (row, rest) = digits::<4>(rest)?;
    let front = Front {
        cycle,
        kind,
        bank: bank as u8,
        row: row as u16,
    };
    Some((front, rest))
}

// Column, requester, number and the line feed, and nothing behind it.
fn read_back(line: &[u8]) -> Option<Back>
    ensures { result ≡ back_in line.now }
{
    let (column, rest) = digits::<3>(line)?;
    let (requester, rest) = digits::<1>(rest)?;
    let (number, rest) = digits::<8>(rest)?;
    if !is_feed(rest) {
        return None;
    }
    Some(Back {
        column: column as u16,
        requester: requester as u8,
        number,
    })
}

// Whether what a command of its kind has no use for is 0, field by field as the format lists them.
fn is_blank(c: Command) -> bool
    ensures { result ≡ blank c }
{
    match c.kind {
        Kind::Idle => c.bank == 0
            && c.row == 0
            && c.column == 0
            && c.requester == 0
            && c.number == 0,
        Kind::Activate => c.column == 0,
        Kind::Precharge => c.row == 0 && c.column == 0,
        Kind::Read | Kind::Write => true,
    }
}

// Whether a line stands for the command. Its cycle, row and number always fit their digits.
pub fn is_proper(c: Command) -> bool
    ensures { result ≡ proper c }
{
    c.bank < 16 && c.column < 4_096 && c.requester < 16 && is_blank(c)
}
