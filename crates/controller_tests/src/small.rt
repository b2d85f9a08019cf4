// The small sheet, on which the sessions of the examples run.
use policy::Request;
use rulebook::{Command, Kind};
use sheet::{Board, Chip, Cycles, Picoseconds, Sheet, Timing};
use std::test::Fail;

// tRCD, tRP, tRAS, tRC, tRRD, tFAW, tCCD, tRTP, tWR, tWTR, RL, WL and BURST in cycles.
const COUNTS: [u32; 13] = [3, 3, 8, 11, 2, 12, 4, 4, 5, 3, 5, 4, 4];

// The span of the small sheet.
pub(crate) const SPAN: u32 = 36;

// The small sheet, and a chip of 8 banks, 1,024 rows and 64 columns; or the failure where one is refused.
pub(crate) fn board() -> Result<Board, Fail> {
    let timings = COUNTS.map(|count| Timing::from(Cycles::new(count)));
    Ok(Board {
        sheet: Sheet::new(Picoseconds::new(1_250), timings)?,
        chip: Chip::new(8, 1_024, 64)?,
    })
}

// A request for bank 0.
pub(crate) fn request(requester: u8, kind: u8, row: u16, column: u16) -> Request {
    Request {
        requester,
        kind,
        bank: 0,
        row,
        column,
    }
}

// A command to bank 0, for the first request of its requester.
pub(crate) fn command(cycle: u32, kind: Kind, row: u16, column: u16, requester: u8) -> Command {
    Command {
        cycle,
        kind,
        bank: 0,
        row,
        column,
        requester,
        number: 0,
    }
}
