// Two units of time as two types. They meet in one place, the conversion that rounds up.
ghost use Rattle.std.specs.Prelude.{◌≡◌, ℕ, ◌*◌, ◌≤◌, Some, codes, decimal};
ghost use Rattle.std.specs.Option.{option_map};
ghost use Rattle.sheet.specs.Units.{picoseconds, cycles, rounded_up, period_of};

use std::fmt;

// A length of time in picoseconds. What it holds is read nowhere else, so it cannot stand beside a count of cycles.
#[derive(Clone, Copy, PartialEq, Eq, PartialOrd, Ord)]
pub struct Picoseconds(u32);

// A length is shown for debugging without its number, by hand: the derive would be a way to read it out.
impl fmt::Debug for Picoseconds {
    ghost debug_output = { λ _. Some (codes "Picoseconds(..)") };

    fn fmt<W: fmt::Write>(&self, f: &mut fmt::Formatter<W>) -> fmt::Result {
        f.write_str("Picoseconds(..)")
    }
}

// A count of clock cycles.
#[derive(Clone, Copy, Debug, PartialEq, Eq, PartialOrd, Ord)]
pub struct Cycles(u32);

// The length of one clock cycle: 1 to 100,000 picoseconds.
#[derive(Clone, Copy, Debug, PartialEq, Eq)]
pub struct Period {
    length: Picoseconds,
    ghost in_range: { (1 ≤ length.0) × (length.0 ≤ 100000) },
}

impl Period {
    // The length as a clock period, if it can be one. An Option and no `TryFrom`: who makes a sheet says which refusal it is.
    pub fn new(length: Picoseconds) -> Option<Period>
        ensures { option_map (λ p. p.length.0) result ≡ period_of length.0 }
    {
        if (1..=100_000).contains(&length.0) {
            Some(Period { length })
        } else {
            None
        }
    }
}

impl Picoseconds {
    // So many picoseconds. It has a name and is no `From`: of two units a bare conversion would not say which one it makes.
    pub const fn new(length: u32) -> Picoseconds
        ensures { result ≡ picoseconds length }
    {
        Picoseconds(length)
    }

    // The least count of periods that together last at least this long.
    pub fn in_cycles(self, period: Period) -> Cycles
        ensures value { result ≡ cycles (rounded_up self.0 period.length.0) }
        ensures lasts { self.0 ≤ result.0 * period.length.0 }
        ensures least { (n : ℕ) → self.0 ≤ n * period.length.0 → result.0 ≤ n }
    {
        Cycles(divided_up(self.0, period.length.0))
    }
}

impl Cycles {
    // So many cycles. It has a name and is no `From`: of two units a bare conversion would not say which one it makes.
    pub const fn new(count: u32) -> Cycles
        ensures { result ≡ cycles count }
    {
        Cycles(count)
    }

    // How many they are. It has a name and is no `From`: a bare conversion would not say that cycles are counted, and not picoseconds.
    pub const fn count(self) -> u32
        ensures { result ≡ self.0 }
    {
        self.0
    }
}

// A count of cycles is shown as its number.
impl fmt::Display for Cycles {
    ghost output = { λ c. Some (decimal c.0) };

    fn fmt<W: fmt::Write>(&self, f: &mut fmt::Formatter<W>) -> fmt::Result {
        let count = self.0;
        write!(f, "{count}")
    }
}

// The quotient, rounded up; a function of its own, so that a wrong rounding is refused here and the laws are added by its caller.
fn divided_up(length: u32, period: u32) -> u32
    requires { 1 ≤ period }
    ensures { result ≡ rounded_up length period }
{
    length.div_ceil(period)
}
