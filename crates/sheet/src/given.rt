// One timing as a data sheet gives it.
ghost use Rattle.std.specs.Prelude.{◌≡◌};
ghost use Rattle.sheet.specs.Given.{counted, over_limit, value_at, value_outside};

use crate::units::{Cycles, Period, Picoseconds};

// A length of time and a least count of cycles; both have to pass.
#[derive(Clone, Copy, Debug, PartialEq, Eq)]
pub struct Timing {
    pub length: Picoseconds,
    pub least: Cycles,
}

// A timing given by its count of cycles alone.
impl From<Cycles> for Timing {
    ghost from_gives = { λ count timing. timing ≡ counted count };

    fn from(count: Cycles) -> Timing {
        Timing {
            length: Picoseconds::new(0),
            least: count,
        }
    }
}

impl Timing {
    // Whether the length or the count is larger than a sheet may give.
    pub fn is_over_limit(self) -> bool
        ensures { result ≡ over_limit self }
    {
        self.length > Picoseconds::new(10_000_000) || self.least > Cycles::new(255)
    }

    // The timing in cycles of this period: the least count, or the length where that is more.
    pub fn value(self, period: Period) -> Cycles
        ensures { result ≡ value_at period.length.0 self }
    {
        self.least.max(self.length.in_cycles(period))
    }

    // Whether the timing in cycles is none that a sheet can have.
    pub fn is_outside(self, period: Period) -> bool
        ensures { result ≡ value_outside period.length.0 self }
    {
        let value = self.value(period).count();
        !(1..=255).contains(&value)
    }
}
