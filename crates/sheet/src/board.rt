// A board: a chip with the sheet of its timings.
use crate::accepted::Sheet;
use crate::geometry::Chip;

// What every rule and every stretch of a service is counted by. Definitions speak of a sheet and of a chip, so that what each rests on can be read off.
#[derive(Clone, Copy, Debug, PartialEq, Eq)]
pub struct Board {
    pub sheet: Sheet,
    pub chip: Chip,
}
