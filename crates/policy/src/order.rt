// What an order of service over a room is: the deadline and the place of an entry that joins, when the first entry is given, and the laws of its soundness.
ghost use Rattle.std.specs.Prelude.{◌≡◌, ℕ, ◌+◌, ◌-◌, ◌^◌, ◌<◌, ◌≤◌, Bool, true, false, length, drop, None, slice_get};
ghost use Rattle.std.specs.List.{insert};
ghost use Rattle.policy.specs.Meaning.{Order, turn_order, Timely, Taken, Turned, base_after};
ghost use Rattle.policy.specs.Moves.{waiting_in, place_left, Moved};
ghost use Rattle.policy.specs.Orders.{room_meaning};
ghost use Rattle.policy.specs.declared.entry.Entry.{Entry};
ghost use Rattle.policy.specs.declared.room.Room.{Room};

use crate::room::Room;

// An order has no state but its room, which its functions only read.
pub trait ServiceOrder {
    // Whether column commands are held until their deadlines.
    const HOLDS: bool;

    // The constant, as contracts know it.
    ghost HOLDS: { Bool };

    // The order's name.
    ghost order: { Order };

    // What holds of the room at this clock, the next cycle to be ticked, while spans are counted from this base.
    ghost sound: { Room → ℕ → ℕ → Type 0 };

    // The deadline of an entry that joins the room, from the clock, the base and its requester.
    ghost deadline: { Room → ℕ → ℕ → ℕ → ℕ };

    // How many entries of the room are served before one that joins with this deadline.
    ghost place: { Room → ℕ → ℕ };

    // Whether an entry waits in the room that is given at this clock.
    ghost is_due: { Room → ℕ → Bool };

    // The deadline that the requester's next entry gets at this clock and base.
    fn deadline(room: &Room, clock: u32, base: u64, requester: u8) -> u64
        ensures { result ≡ deadline room.now clock base requester };

    // The place of an entry that joins and is due by this cycle, counted from 0.
    fn place(room: &Room, due_by: u64) -> usize
        ensures value { result ≡ place room.now due_by }
        ensures within { result ≤ length (waiting_in room.now) };

    // Whether the first entry is given where a turn is asked for at this clock.
    fn is_due(room: &Room, clock: u32) -> bool
        ensures { result ≡ is_due room.now clock };

    // Turn order holds.
    ghost turns_hold: { order ≡ turn_order → HOLDS ≡ true };

    // An offer is taken, and the room stays sound, where the entry joins with the order's deadline at the order's place.
    ghost joined: { (r s : Room) (c b : ℕ) (e : Entry) → c < 2 ^ 32 → place_left r e.requester ≡ true → e.deadline ≡ deadline r c b e.requester → Moved r c (insert (waiting_in r) (place r e.deadline) e) s → sound r c b → Taken (room_meaning order HOLDS r) c b e (room_meaning order HOLDS s) × sound s c b };

    // A turn is answered, and the room stays sound, where the first entry leaves when it is due.
    ghost given: { (r s : Room) (c : ℕ) → is_due r c ≡ true → Moved r c (drop 1 (waiting_in r)) s → sound r c (c - 1) → Turned (room_meaning order HOLDS r) c (slice_get (waiting_in r) 0) (room_meaning order HOLDS s) × sound s (c + 1) (base_after r.numbers.span c (slice_get (waiting_in r) 0)) };

    // A turn is answered, and the room stays sound, where nothing leaves since nothing is due.
    ghost passed: { (r s : Room) (c : ℕ) → is_due r c ≡ false → Moved r c (waiting_in r) s → sound r c (c - 1) → Turned (room_meaning order HOLDS r) c None (room_meaning order HOLDS s) × sound s (c + 1) c };

    // At clock 0 the room is sound for a session that begins.
    ghost fresh: { (r : Room) → r.clock ≡ 0 → sound r 1 0 };

    // Each entry's deadline leaves room for those before it.
    ghost timely: { (r : Room) (c b : ℕ) → sound r c b → Timely r.numbers.span b (waiting_in r) };

    // The clock goes on while one is served, and a service may end early.
    ghost shortened: { (r : Room) (c b d a : ℕ) → c ≤ d → d ≤ a + 1 → a ≤ b → sound r c b → sound r d a };
}
