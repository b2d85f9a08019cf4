// A caller that knows nothing of a policy but its trait.
ghost use Rattle.std.specs.Prelude.{◌≡◌, ◌-◌};
ghost use Rattle.policy.specs.Meaning.{Timely, base_after};

use policy::{Entry, Policy};

// The first cycle of a session over any policy: an offer, and a turn. Where no call had come before, the policy is sound for the next cycle, and the deadlines of all that still waits leave room for what is served.
pub fn first_cycle<P: Policy>(policy: &mut P, entry: Entry) -> Option<Entry>
    ensures sound { (P.meaning policy.old).clock ≡ 0 → P.sound policy.new 2 (base_after (P.meaning policy.new).span 1 result) }
    ensures timely { (P.meaning policy.old).clock ≡ 0 → Timely (P.meaning policy.new).span (base_after (P.meaning policy.new).span 1 result) (P.meaning policy.new).waiting }
{
    let _ = policy.offer(1, 0, entry);
    policy.turn(1)
}
