// What waits, kept apart from any policy: a bag of entries in no order, over which every point is counted anew.
use arrayvec::ArrayVec;
use policy::{Entry, FirstCome, Numbers, Policy, Spreading, TurnOrder};
use std::process::Abort;
use std::test::*;

// A policy with what is expected of it. The numbers of a run's entries rise with each offer.
pub(crate) trait Expected: Policy {
    // What rises with the place of an entry.
    fn rank(entry: Entry) -> u64;

    // The deadline of an offer of the requester, from what waits.
    fn deadline(bag: &Bag, requester: u8, clock: u32, base: u64) -> u64;

    // The bank under which an entry is kept.
    fn bank(numbers: Numbers, entry: Entry) -> u8;
}

impl Expected for FirstCome {
    fn rank(entry: Entry) -> u64 {
        u64::from(entry.number)
    }

    fn deadline(bag: &Bag, _requester: u8, _clock: u32, base: u64) -> u64 {
        bag.spans_after(base, bag.len().saturating_add(1))
    }

    fn bank(_numbers: Numbers, entry: Entry) -> u8 {
        entry.bank
    }
}

impl Expected for TurnOrder {
    fn rank(entry: Entry) -> u64 {
        entry.deadline
    }

    fn deadline(bag: &Bag, requester: u8, clock: u32, _base: u64) -> u64 {
        slot_end_of(bag.numbers, bag.own(requester), requester, clock)
    }

    fn bank(_numbers: Numbers, entry: Entry) -> u8 {
        entry.bank
    }
}

// A layer turns the bank round the bank count by the row, and all else is as below.
impl<P: Expected> Expected for Spreading<P> {
    fn rank(entry: Entry) -> u64 {
        P::rank(entry)
    }

    fn deadline(bag: &Bag, requester: u8, clock: u32, base: u64) -> u64 {
        P::deadline(bag, requester, clock, base)
    }

    fn bank(numbers: Numbers, entry: Entry) -> u8 {
        let turned = u32::from(entry.bank) + u32::from(entry.row);
        let bank = (turned % u32::from(numbers.banks)) as u8;
        P::bank(numbers, Entry { bank, ..entry })
    }
}

// The entries that wait, in no order, and the numbers of the policy.
#[derive(Drop)]
pub(crate) struct Bag {
    entries: ArrayVec<Entry, 128>,
    pub(crate) numbers: Numbers,
}

impl Bag {
    // Nothing waits.
    pub(crate) fn new(numbers: Numbers) -> Bag {
        Bag {
            entries: ArrayVec::new(),
            numbers,
        }
    }

    // How many entries wait.
    pub(crate) fn len(&self) -> u64 {
        self.entries.len() as u64
    }

    // How many entries of the requester wait.
    pub(crate) fn own(&self, requester: u8) -> usize {
        self.entries
            .iter()
            .filter(|entry| entry.requester == requester)
            .count()
    }

    // Whether there is no such requester, or all its places wait.
    pub(crate) fn is_full(&self, requester: u8) -> bool {
        requester >= self.numbers.requesters
            || self.own(requester) >= usize::from(self.numbers.places)
    }

    // So many spans after the base.
    fn spans_after(&self, base: u64, spans: u64) -> u64 {
        base.saturating_add(spans.saturating_mul(u64::from(self.numbers.span)))
    }

    // The place of an entry in the order of service: how many entries come before it.
    fn place<P: Expected>(&self, served: Entry) -> u64 {
        let rank = P::rank(served);
        self.entries
            .iter()
            .filter(|entry| P::rank(**entry) < rank)
            .count() as u64
    }

    // Place j has a deadline of at least base + (j + 1) spans.
    pub(crate) fn leaves_room<P: Expected>(&self, rt: &impl Abort, base: u64) {
        for entry in &self.entries {
            let spans = self.place::<P>(*entry).saturating_add(1);
            assert!(rt; self.spans_after(base, spans) <= entry.deadline);
        }
    }

    // The entry joins.
    pub(crate) fn put(&mut self, entry: Entry) -> Result<(), Fail> {
        self.entries.try_push(entry)?;
        Ok(())
    }

    // The entry was the first in the order of service, and leaves.
    pub(crate) fn take_first<P: Expected>(
        &mut self,
        rt: &impl Abort,
        first: Entry,
    ) -> Result<(), Fail> {
        assert_eq!(rt; self.place::<P>(first), 0);
        let found = self.entries.iter().position(|entry| *entry == first);
        let at = found.ok_or("nothing like it was offered")?;
        let _ = self.entries.swap_pop(at);
        Ok(())
    }
}

// The last cycle of the requester's own slot, from 0, that lies behind so many others of those that start at the clock or later: slots are gone through one by one.
fn slot_end_of(numbers: Numbers, behind: usize, requester: u8, clock: u32) -> u64 {
    let span = u64::from(numbers.span);
    (0..100_000u64)
        .filter(|slot| slot % u64::from(numbers.requesters) == u64::from(requester))
        .map(|slot| slot.saturating_mul(span).saturating_add(1))
        .filter(|start| *start >= u64::from(clock))
        .nth(behind)
        .map_or(0, |start| start.saturating_add(span).saturating_sub(1))
}
