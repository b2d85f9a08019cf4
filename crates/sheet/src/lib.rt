// The timing sheet and the chip: what a board designer gives, what is accepted of it, and the longest time that one service can take.
#![tactic(auto)]

pub mod accepted; // an accepted sheet: thirteen timings in cycles, within their limits for good
pub mod board; // a chip with the sheet of its timings
pub mod geometry; // the chip: how many banks, rows and columns it has
pub mod given; // one timing as a data sheet gives it
pub mod making; // making a sheet, and why one is refused
pub mod spans; // the derived gaps, the three stretches and the span
pub mod units; // picoseconds and cycles, and the one conversion between them

pub use accepted::Sheet;
pub use board::Board;
pub use geometry::Chip;
pub use given::Timing;
pub use making::{ChipRefusal, SheetRefusal};
pub use units::{Cycles, Period, Picoseconds};
