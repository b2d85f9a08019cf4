// The four numbers that a policy is made for.
ghost use Rattle.std.specs.Prelude.{◌≤◌};

// Requesters, places of each, the span of a service and the bank count. Made by `Numbers::new`; their limits hold for good.
#[derive(Clone, Copy, Debug, PartialEq, Eq)]
pub struct Numbers {
    pub requesters: u8,
    pub places: u8,
    pub span: u32,
    pub banks: u8,
    ghost requesters_in: { (1 ≤ requesters) × (requesters ≤ 16) },
    ghost places_in: { (1 ≤ places) × (places ≤ 8) },
    ghost span_in: { (7 ≤ span) × (span ≤ 1785) },
    ghost banks_in: { (1 ≤ banks) × (banks ≤ 16) },
}
