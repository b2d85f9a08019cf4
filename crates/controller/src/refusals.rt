// Why opening, offering and ticking are refused.
ghost use Rattle.std.specs.Prelude.{◌≡◌};
ghost use Rattle.controller.specs.declared.refusals.OfferRefusal.TheVariants.{Full as FullUp};
ghost use Rattle.controller.specs.Refusals.{opening_number, offer_number, tick_number};

use policy::NoPlace;

// Why a session is not opened; the first reason in this order is answered.
#[derive(Clone, Copy, Debug, PartialEq, Eq)]
pub enum OpeningRefusal {
    // The policy's span or bank count is not that of the sheet and the chip.
    Shape = 7,
    // The policy's latest clock is not 0: it was used already.
    Used = 8,
    // The last cycle is not 1 to 4,000,000,000.
    LastCycle = 9,
}

// Why an offer is not accepted; the first reason in this order is answered.
#[derive(Clone, Copy, Debug, PartialEq, Eq)]
pub enum OfferRefusal {
    // There is no such requester.
    Requester = 10,
    // The request is no read or write, or its address lies outside the chip.
    Request = 11,
    // Its deadline could lie past the last cycle.
    Late = 12,
    // All places of the requester are taken by entries that wait.
    Full = 13,
}

// Why a tick does not pass a cycle.
#[derive(Clone, Copy, Debug, PartialEq, Eq)]
pub enum TickRefusal {
    // The last cycle has been ticked.
    Over = 14,
}

impl OpeningRefusal {
    // The number of the refusal. It has a name and is no `From`: `u8::from` would not say that it is the listed number.
    pub fn number(self) -> u8
        ensures { result ≡ opening_number self }
    {
        self as u8
    }
}

// A policy takes no offer whose requester has no place left.
impl From<NoPlace> for OfferRefusal {
    ghost from_gives = { λ _ refusal. refusal ≡ FullUp };

    fn from(_why: NoPlace) -> OfferRefusal {
        OfferRefusal::Full
    }
}

impl OfferRefusal {
    // The number of the refusal. It has a name and is no `From`: `u8::from` would not say that it is the listed number.
    pub fn number(self) -> u8
        ensures { result ≡ offer_number self }
    {
        self as u8
    }
}

impl TickRefusal {
    // The number of the refusal. It has a name and is no `From`: `u8::from` would not say that it is the listed number.
    pub fn number(self) -> u8
        ensures { result ≡ tick_number self }
    {
        self as u8
    }
}
