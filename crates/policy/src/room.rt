// The entries that wait, with what the policy was made for.
ghost use Rattle.std.specs.Prelude.{◌≡◌, ℕ, ◌≤◌, [], length};
ghost use Rattle.policy.specs.Meaning.{own, places_of};

use crate::entry::Entry;
use crate::numbers::Numbers;
use arrayvec::ArrayVec;

mod calls; // making one, and taking entries in and out

// What every order keeps: the entries that wait, in order of service, the numbers and the latest clock. No requester has more entries waiting than places, and at clock 0 nothing waits.
#[derive(Drop)]
pub struct Room {
    pub(crate) waiting: ArrayVec<Entry, 128>,
    pub(crate) numbers: Numbers,
    pub(crate) clock: u32,
    ghost few: { (r : ℕ) → length (own r waiting.items) ≤ places_of numbers.requesters numbers.places r },
    ghost fresh: { clock ≡ 0 → waiting.items ≡ [] },
}
