// What is answered to an accepted offer.

// The request's number, which is how many offers of its requester were accepted before it, and the cycle by which it is served.
#[derive(Clone, Copy, Debug, PartialEq, Eq)]
pub struct Receipt {
    pub number: u32,
    pub deadline: u64,
}
