// Turn order: time is cut into slots of one span, which belong to the requesters in turn, and each entry is served in a slot of its requester.
ghost use Rattle.std.specs.Prelude.{◌≡◌, ◌+◌, ◌-◌, ◌*◌, ◌^◌, ◌<◌, ◌≤◌, true, refl, length, slice_get};
ghost use Rattle.std.proofs.Common.{sym, subst, arith};
ghost use Rattle.policy.specs.InTurn.{turn_taken, turn_gives, turn_passes};
ghost use Rattle.policy.specs.Meaning.{turn_order, due_before, next_slot, own_slot, first_own_slot, slot_end};
ghost use Rattle.policy.specs.Moves.{waiting_in};
ghost use Rattle.policy.specs.Turns.{TurnSoundIn, starts_now, TurnSound, deadline_by_slot};
ghost use Rattle.policy.specs.TurnLaws.{turn_fresh, apart_timely, turn_shortened};

use crate::in_order::InOrder;
use crate::numbers::Numbers;
use crate::order::ServiceOrder;
use crate::room::Room;

// A policy in which slot k, from 0, covers the cycles k × span + 1 to (k + 1) × span and belongs to requester k mod requesters.
pub type TurnOrder = InOrder<BySlot>;

// The order of the slots that entries have.
pub struct BySlot;

impl ServiceOrder for BySlot {
    const HOLDS: bool = true;

    ghost HOLDS = { true };

    ghost order = { turn_order };

    ghost sound = { TurnSoundIn };

    ghost deadline = { λ r c b x. deadline_by_slot r c x };

    ghost place = { λ r d. length (due_before d (waiting_in r)) };

    ghost is_due = { λ r c. starts_now r.numbers.span c (slice_get (waiting_in r) 0) };

    ghost turns_hold = { λ _. refl };

    ghost joined = { λ r s c b e _. turn_taken r s c b e };

    ghost given = { turn_gives };

    ghost passed = { turn_passes };

    ghost fresh = { λ r h. subst (λ es. TurnSound r.numbers.span r.numbers.requesters 1 0 es) (sym (r.fresh h)) (turn_fresh r.numbers.span r.numbers.requesters (omega (arith, r.numbers.span_in))) };

    ghost timely = { λ r c b s. apart_timely r.numbers.span b (s.next * r.numbers.span) (waiting_in r) s.base_before s.apart };

    ghost shortened = { λ r c b d a h k l s. turn_shortened r.numbers.span r.numbers.requesters c b d a (waiting_in r) h k l s };

    // By the end of the slot that follows those of the requester's entries that wait.
    fn deadline(room: &Room, clock: u32, _base: u64, requester: u8) -> u64 {
        let ahead = room.count(requester);
        room.numbers.deadline_in_turn(clock, requester, ahead)
    }

    // After the entries that are due before it.
    fn place(room: &Room, due_by: u64) -> usize {
        room.count_before(due_by)
    }

    // Where the slot of the first entry starts at the clock.
    fn is_due(room: &Room, clock: u32) -> bool {
        let end = u64::from(clock) + u64::from(room.numbers.span) - 1;
        room.waiting
            .first()
            .is_some_and(|entry| entry.deadline == end)
    }
}

impl Numbers {
    // The end of the slot that follows those of the entries ahead, from the requester's first slot that has not begun.
    fn deadline_in_turn(self, clock: u32, requester: u8, ahead: usize) -> u64
        requires { ahead ≤ 128 }
        ensures { result ≡ slot_end self.span (first_own_slot self.span self.requesters requester clock + ahead * self.requesters) }
    {
        let first = self.own_slot(requester, self.next_slot(clock));
        self.slot_end(first + ahead as u64 * u64::from(self.requesters))
    }

    // The first slot that starts at the clock or later.
    fn next_slot(self, clock: u32) -> u64
        ensures value { result ≡ next_slot self.span clock }
        ensures bound { result < 2 ^ 33 }
    {
        u64::from(clock.saturating_sub(1)).div_ceil(u64::from(self.span))
    }

    // The first slot from this one on that is the requester's own.
    fn own_slot(self, requester: u8, slot: u64) -> u64
        requires { slot < 2 ^ 33 }
        ensures value { result ≡ own_slot self.requesters requester slot }
        ensures bound { result < 2 ^ 34 }
    {
        let turns = u64::from(self.requesters);
        slot + (turns + u64::from(requester) - slot % turns) % turns
    }

    // The last cycle of the slot.
    fn slot_end(self, slot: u64) -> u64
        requires { slot < 2 ^ 35 }
        ensures { result ≡ slot_end self.span slot }
    {
        (slot + 1) * u64::from(self.span)
    }
}
