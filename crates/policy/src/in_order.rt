// A policy that serves the entries of its room in an order.
ghost use Rattle.std.specs.Prelude.{◌≡◌, refl};
ghost use Rattle.policy.specs.Ordered.{room_shaped};
ghost use Rattle.policy.specs.Orders.{room_meaning, policy_told, policy_made};

use crate::contract::{NoPlace, Policy};
use crate::entry::Entry;
use crate::making::PolicyRefusal;
use crate::numbers::Numbers;
use crate::order::ServiceOrder;
use crate::room::Room;
use std::marker::PhantomData;

// A room, and the order in which its entries are served.
#[derive(Drop)]
pub struct InOrder<O: ServiceOrder> {
    room: Room,
    order: PhantomData<O>,
}

impl<O: ServiceOrder> InOrder<O> {
    // The order over these numbers, or the refusal where one is out of range. They come one by one and not as `Numbers`, since it is here that they are refused.
    pub fn new(
        requesters: u8,
        places: u8,
        span: u32,
        banks: u8,
    ) -> Result<InOrder<O>, PolicyRefusal>
        ensures { policy_told (λ p. room_meaning O.order O.HOLDS p.room) result ≡ policy_made O.order O.HOLDS requesters places span banks }
    {
        let numbers = Numbers::new(requesters, places, span, banks)?;
        Ok(InOrder {
            room: Room::new(numbers),
            order: PhantomData,
        })
    }
}

impl<O: ServiceOrder> Policy for InOrder<O> {
    const HOLDS: bool = O::HOLDS;

    ghost HOLDS = { O.HOLDS };

    ghost meaning = { λ p. room_meaning O.order O.HOLDS p.room };

    ghost sound = { λ p c b. O.sound p.room c b };

    ghost holding = { λ p. refl };

    ghost shaped = { λ p. room_shaped O.order O.HOLDS p.room O.turns_hold };

    ghost fresh = { λ p h. (p.room.fresh h, O.fresh p.room h) };

    ghost timely = { λ p c b. O.timely p.room c b };

    ghost shortened = { λ p c b d a. O.shortened p.room c b d a };

    fn offer(&mut self, clock: u32, base: u64, entry: Entry) -> Result<u64, NoPlace> {
        if !self.room.has_place(entry.requester) {
            return Err(NoPlace);
        }
        let deadline = O::deadline(&self.room, clock, base, entry.requester);
        let place = O::place(&self.room, deadline);
        self.room.join(clock, place, entry.due(deadline));
        Ok(deadline)
    }

    fn turn(&mut self, clock: u32) -> Option<Entry> {
        if O::is_due(&self.room, clock) {
            self.room.give(clock)
        } else {
            self.room.pass(clock);
            None
        }
    }

    fn requesters(&self) -> u8 {
        self.room.numbers.requesters
    }

    fn span(&self) -> u32 {
        self.room.numbers.span
    }

    fn banks(&self) -> u8 {
        self.room.numbers.banks
    }

    fn reach(&self) -> u32 {
        self.room.numbers.reach()
    }

    fn clock(&self) -> u32 {
        self.room.clock
    }
}
