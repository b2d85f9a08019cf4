// Making a sheet and a chip, and why one is refused.
ghost use Rattle.std.specs.Prelude.{◌≡◌, None};
ghost use Rattle.sheet.specs.First.{first_place};
ghost use Rattle.sheet.specs.Given.{over_limit, value_outside};
ghost use Rattle.sheet.specs.Making.{sheet_number, sheet_place, sheet_told, sheet_made, valued_or_late, chip_number, chip_told, chip_made};

use crate::accepted::Sheet;
use crate::geometry::Chip;
use crate::given::Timing;
use crate::units::{Period, Picoseconds};

// Why a sheet is refused; the first reason in this order is answered. A place is that of a timing in the sheet, from 0.
#[derive(Clone, Copy, Debug, PartialEq, Eq)]
pub enum SheetRefusal {
    // The period is not 1 to 100,000 picoseconds.
    Period,
    // The length at this place is over 10,000,000 picoseconds, or its least count over 255.
    Limit(usize),
    // The value at this place is not 1 to 255 cycles.
    Value(usize),
    // WL is over RL.
    Latencies,
}

impl SheetRefusal {
    // The number of the refusal. It has a name and is no `From`: `u8::from` would not say that it is the listed number.
    pub fn number(self) -> u8
        ensures { result ≡ sheet_number self }
    {
        match self {
            SheetRefusal::Period => 1,
            SheetRefusal::Limit(_) => 2,
            SheetRefusal::Value(_) => 3,
            SheetRefusal::Latencies => 4,
        }
    }

    // The place of the timing that it carries.
    pub fn place(self) -> Option<usize>
        ensures { result ≡ sheet_place self }
    {
        match self {
            SheetRefusal::Limit(place) | SheetRefusal::Value(place) => Some(place),
            SheetRefusal::Period | SheetRefusal::Latencies => None,
        }
    }
}

impl Sheet {
    // The sheet of these timings, given in the order of a sheet, or the first reason against it.
    pub fn new(period: Picoseconds, timings: [Timing; 13]) -> Result<Sheet, SheetRefusal>
        ensures { sheet_told result ≡ sheet_made period.0 timings }
    {
        let period = Period::new(period).ok_or(SheetRefusal::Period)?;
        if let Some(place) = first_over_limit(&timings) {
            return Err(SheetRefusal::Limit(place));
        }
        if let Some(place) = first_outside(period, &timings) {
            return Err(SheetRefusal::Value(place));
        }
        valued(period, timings)
    }
}

// The place of the first timing whose length or count is over its limit; a function of its own, so that its caller has the clause.
fn first_over_limit(timings: &[Timing]) -> Option<usize>
    ensures { result ≡ first_place over_limit timings.now }
{
    timings.iter().position(|timing| timing.is_over_limit())
}

// The place of the first timing whose value is not 1 to 255; a function of its own, so that its caller has the clause.
fn first_outside(period: Period, timings: &[Timing]) -> Option<usize>
    ensures { result ≡ first_place (value_outside period.length.0) timings.now }
{
    timings.iter().position(|timing| timing.is_outside(period))
}

// The sheet of timings that all have a value of 1 to 255.
fn valued(period: Period, timings: [Timing; 13]) -> Result<Sheet, SheetRefusal>
    requires { first_place (value_outside period.length.0) timings ≡ None }
    ensures { sheet_told result ≡ valued_or_late period.length.0 timings }
{
    let [rcd, rp, ras, rc, rrd, faw, ccd, rtp, wr, wtr, rl, wl, burst] = timings;
    let rl = rl.value(period);
    let wl = wl.value(period);
    if wl > rl {
        return Err(SheetRefusal::Latencies);
    }
    Ok(Sheet {
        rcd: rcd.value(period),
        rp: rp.value(period),
        ras: ras.value(period),
        rc: rc.value(period),
        rrd: rrd.value(period),
        faw: faw.value(period),
        ccd: ccd.value(period),
        rtp: rtp.value(period),
        wr: wr.value(period),
        wtr: wtr.value(period),
        rl,
        wl,
        burst: burst.value(period),
    })
}

// Why a chip is refused.
#[derive(Clone, Copy, Debug, PartialEq, Eq)]
pub enum ChipRefusal {
    // Banks are not 1 to 16, rows not 1 to 65,536, or columns not 1 to 1,024.
    Size = 5,
}

impl ChipRefusal {
    // The number of the refusal. It has a name and is no `From`: `u8::from` would not say that it is the listed number.
    pub fn number(self) -> u8
        ensures { result ≡ chip_number self }
    {
        self as u8
    }
}

impl Chip {
    // The chip of these sizes, or the refusal where one is out of range.
    pub fn new(banks: u32, rows: u32, columns: u32) -> Result<Chip, ChipRefusal>
        ensures { chip_told result ≡ chip_made banks rows columns }
    {
        if !(1..=16).contains(&banks)
            || !(1..=65_536).contains(&rows)
            || !(1..=1_024).contains(&columns)
        {
            return Err(ChipRefusal::Size);
        }
        Ok(Chip {
            banks,
            rows,
            columns,
        })
    }
}
