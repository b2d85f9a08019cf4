// Making the numbers of a policy, and why they are refused.
ghost use Rattle.std.specs.Prelude.{◌≡◌, ◌+◌, ◌*◌};
ghost use Rattle.policy.specs.Making.{policy_number, numbers_told, numbers_made, reach_of};

use crate::numbers::Numbers;

// Why a policy is refused.
#[derive(Clone, Copy, Debug, PartialEq, Eq)]
pub enum PolicyRefusal {
    // Requesters are not 1 to 16, places not 1 to 8, the span not 7 to 1,785, or banks not 1 to 16.
    Number = 6,
}

impl PolicyRefusal {
    // The number of the refusal. It has a name and is no `From`: `u8::from` would not say that it is the listed number.
    pub fn number(self) -> u8
        ensures { result ≡ policy_number self }
    {
        self as u8
    }
}

impl Numbers {
    // These numbers, or the refusal where one is out of range.
    pub fn new(requesters: u8, places: u8, span: u32, banks: u8) -> Result<Numbers, PolicyRefusal>
        ensures { numbers_told result ≡ numbers_made requesters places span banks }
    {
        let fit = (1..=16).contains(&requesters)
            && (1..=8).contains(&places)
            && (7..=1_785).contains(&span)
            && (1..=16).contains(&banks);
        if !fit {
            return Err(PolicyRefusal::Number);
        }
        Ok(Numbers {
            requesters,
            places,
            span,
            banks,
        })
    }

    // How far beyond the cycle before an offer its deadline lies at most: one span for each place there is, and one more.
    pub fn reach(self) -> u32
        ensures { result ≡ reach_of self.requesters self.places self.span }
    {
        self.span * (u32::from(self.requesters) * u32::from(self.places) + 1)
    }
}
