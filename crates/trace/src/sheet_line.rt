// The sheet line: 119 digits and a line feed. Period 5; for each of the thirteen timings length 6 and count 2; banks 2, rows 5, columns 3.
ghost use Rattle.std.specs.Prelude.{◌≡◌, drop};
ghost use Rattle.trace.specs.Fields.{ReadsThen};
ghost use Rattle.trace.specs.SheetLine.{timing_in, timings_in, sizes_in, sheet_line_in, SheetOnlySo, SheetReadsBack};

use crate::fields::{digits, is_feed};
use sheet::{Cycles, Picoseconds, Timing};

// The fields of a sheet line, whatever their values are; the chip's sizes are apart until a chip is made of them.
#[derive(Clone, Copy, Debug, PartialEq, Eq)]
pub struct SheetLine {
    pub period: Picoseconds,
    pub timings: [Timing; 13],
    pub banks: u32,
    pub rows: u32,
    pub columns: u32,
}

// The chip's sizes as a line gives them.
#[derive(Clone, Copy, Debug, PartialEq, Eq)]
pub(crate) struct Sizes {
    pub(crate) banks: u32,
    pub(crate) rows: u32,
    pub(crate) columns: u32,
}

// The fields of a sheet line; none where the bytes are no such line. A line is read as fields exactly when it is the text of those fields.
pub fn read_sheet_line(line: &[u8]) -> Option<SheetLine>
    ensures value { result ≡ sheet_line_in line.now }
    ensures only_so { SheetOnlySo line.now result }
    ensures reads_back { SheetReadsBack line.now result }
{
    read_fields(line)
}

// The fields of a sheet line; a function of its own, so that a wrong field is refused here and the laws are added by its caller.
fn read_fields(line: &[u8]) -> Option<SheetLine>
    ensures { result ≡ sheet_line_in line.now }
{
    let (period, rest) = digits::<5>(line)?;
    let (timings, rest) = read_timings(rest)?;
    let Sizes {
        banks,
        rows,
        columns,
    } = read_sizes(rest)?;
    Some(SheetLine {
        period: Picoseconds::new(period),
        timings,
        banks,
        rows,
        columns,
    })
}

// The thirteen timings, and the bytes that follow them.
fn read_timings(line: &[u8]) -> Option<([Timing; 13], &[u8])>
    ensures { ReadsThen (timings_in 13 line.now) (drop 104 line.now) result }
{
    let mut timings = [Timing::from(Cycles::new(0)); 13];
    let mut rest = line;
    for timing in timings.iter_mut() {
        let (read, after) = read_timing(rest)?;
        *timing = read;
        rest = after;
    }
    Some((timings, rest))
}

// One timing, and the bytes that follow it.
fn read_timing(line: &[u8]) -> Option<(Timing, &[u8])>
    ensures { ReadsThen (timing_in line.now) (drop 8 line.now) result }
{
    let (length, rest) = digits::<6>(line)?;
    let (least, rest) = digits::<2>(rest)?;
    let timing = Timing {
        length: Picoseconds::new(length),
        least: Cycles::new(least),
    };
    Some((timing, rest))
}

// The chip's sizes and the line feed, and nothing behind it.
fn read_sizes(line: &[u8]) -> Option<Sizes>
    ensures { result ≡ sizes_in line.now }
{
    let (banks, rest) = digits::<2>(line)?;
    let (rows, rest) = digits::<5>(rest)?;
    let (columns, rest) = digits::<3>(rest)?;
    if !is_feed(rest) {
        return None;
    }
    Some(Sizes {
        banks,
        rows,
        columns,
    })
}
