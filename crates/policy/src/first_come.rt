// First come: entries are served in the order in which they came, as soon as the one before is done.
ghost use Rattle.std.specs.Prelude.{◌≡◌, ℕ, ◌+◌, ◌-◌, ◌*◌, ◌%◌, ◌^◌, false, length};
ghost use Rattle.std.proofs.Common.{sym, subst, arith, rules};
ghost use Rattle.policy.specs.Arriving.{first_taken, first_gives, first_passes};
ghost use Rattle.policy.specs.FirstCome.{FirstSound, FirstSoundIn, deadline_at_end, some_wait};
ghost use Rattle.policy.specs.FirstLaws.{first_shortened};
ghost use Rattle.policy.specs.Meaning.{first_come};
ghost use Rattle.policy.specs.Moves.{waiting_in};

use crate::in_order::InOrder;
use crate::order::ServiceOrder;
use crate::room::Room;

// A policy that serves entries in the order in which they came.
pub type FirstCome = InOrder<ByArrival>;

// The order in which entries came.
pub struct ByArrival;

impl ServiceOrder for ByArrival {
    const HOLDS: bool = false;

    ghost HOLDS = { false };

    ghost order = { first_come };

    ghost sound = { FirstSoundIn };

    ghost deadline = { λ r c b x. deadline_at_end r b };

    ghost place = { λ r d. length (waiting_in r) };

    ghost is_due = { λ r c. some_wait r };

    ghost turns_hold = { λ e. cc };

    ghost joined = { first_taken };

    ghost given = { first_gives };

    ghost passed = { first_passes };

    ghost fresh = { λ r h. subst (λ es. FirstSound r.numbers.span 1 0 es) (sym (r.fresh h)) (Prim.search rules) };

    ghost timely = { Prim.search rules };

    ghost shortened = { λ r c b d a h k l s. first_shortened r.numbers.span c b d a (waiting_in r) h k l s };

    // From the base on, a span for each entry before it and one for itself. A sum that no session comes to wraps.
    fn deadline(room: &Room, _clock: u32, base: u64, _requester: u8) -> u64 {
        base.wrapping_add(u64::from(room.numbers.span) * (room.waiting.len() as u64 + 1))
    }

    // At the end.
    fn place(room: &Room, _due_by: u64) -> usize {
        room.waiting.len()
    }

    // Whenever one waits.
    fn is_due(room: &Room, _clock: u32) -> bool {
        !room.waiting.is_empty()
    }
}
