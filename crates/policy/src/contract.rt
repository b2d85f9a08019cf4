// What a policy is: its meaning, the laws of that meaning, and what its calls do to it.
ghost use Rattle.std.specs.Prelude.{◌≡◌, ℕ, ◌+◌, ◌-◌, ◌≤◌, Bool, [], IfOk, MatchResult};
ghost use Rattle.policy.specs.Meaning.{Meaning, WellShaped, Timely, as_waiting, Taken, HasPlace, Full, Turned, base_after};

use crate::entry::Entry;

// Why an offer is refused: all places of its requester are taken by entries that wait.
#[derive(Clone, Copy, Debug, PartialEq, Eq)]
pub struct NoPlace;

// Several policies stand behind these calls. Every call may be made at any time and returns; its points hold of calls that come in order, each on a policy that is sound at the clock and base it is called with.
// Its numbers are asked one by one, and a layer hands each on by hand: every one is a public call with its own clause, and no `Numbers` would do for all, since a policy's places may differ by requester.
pub trait Policy {
    // Whether column commands are held until their deadlines; a layer has that of the policy below.
    const HOLDS: bool;

    // The constant, as contracts know it.
    ghost HOLDS: { Bool };

    // What the policy stands for.
    ghost meaning: { Self → Meaning };

    // What holds at this clock, the next cycle to be ticked, while spans are counted from this base.
    ghost sound: { Self → ℕ → ℕ → Type 0 };

    // Takes the request in and answers its deadline, whatever deadline it came with. It is refused exactly where its requester has all places waiting, and then nothing changes.
    fn offer(&mut self, clock: u32, base: u64, entry: Entry) -> Result<u64, NoPlace>
        ensures refused { MatchResult result (λ _. HasPlace (meaning self.old) entry.requester) (λ _. (self.new ≡ self.old) × Full (meaning self.old) entry.requester) }
        ensures taken { sound self.old clock base → IfOk result (λ d. Taken (meaning self.old) clock base (as_waiting (meaning self.old) entry d) (meaning self.new) × sound self.new clock base) };

    // Asked for a turn with nothing in service: gives its first entry, which leaves, or none.
    fn turn(&mut self, clock: u32) -> Option<Entry>
        ensures { sound self.old clock (clock - 1) → Turned (meaning self.old) clock result (meaning self.new) × sound self.new (clock + 1) (base_after (meaning self.old).span clock result) };

    // How many requesters it was made for.
    fn requesters(&self) -> u8
        ensures { result ≡ (meaning self.now).requesters };

    // The longest time that one service takes.
    fn span(&self) -> u32
        ensures { result ≡ (meaning self.now).span };

    // The bank count.
    fn banks(&self) -> u8
        ensures { result ≡ (meaning self.now).banks };

    // How far beyond the cycle before an offer its deadline lies at most.
    fn reach(&self) -> u32
        ensures { result ≡ (meaning self.now).reach };

    // The clock of the last turn asked or offer taken; 0 when new, by a rule of the project (docs/DECISIONS.md).
    fn clock(&self) -> u32
        ensures { result ≡ (meaning self.now).clock };

    // The constant is what the policy means by holding.
    ghost holding: { (p : Self) → (meaning p).holds ≡ HOLDS };

    // What is kept for good is within its limits.
    ghost shaped: { (p : Self) → WellShaped (meaning p) };

    // At clock 0 nothing waits, and the policy is sound for a session that begins.
    ghost fresh: { (p : Self) → (meaning p).clock ≡ 0 → ((meaning p).waiting ≡ []) × sound p 1 0 };

    // Each entry's deadline leaves room for those before it.
    ghost timely: { (p : Self) (c b : ℕ) → sound p c b → Timely (meaning p).span b (meaning p).waiting };

    // The clock goes on while one is served, and a service may end early.
    ghost shortened: { (p : Self) (c b d a : ℕ) → c ≤ d → d ≤ a + 1 → a ≤ b → sound p c b → sound p d a };
}
