// Spreading: a layer that passes each bank down under another one, so that neighbouring rows of a bank lie in different banks.
ghost use Rattle.std.specs.Prelude.{◌≡◌, ◌+◌, ◌-◌, ◌<◌, ◌≤◌};
ghost use Rattle.policy.specs.Spreading.{spread_bank, spread};
ghost use Rattle.policy.specs.Spreads.{spread_shaped};
ghost use Rattle.std.proofs.Common.{rules};

use crate::contract::{NoPlace, Policy};
use crate::entry::Entry;

// A policy over the policy below: bank b of row r is passed down as (b + r) mod banks, and all else is as below.
#[derive(Drop)]
pub struct Spreading<P: Policy> {
    below: P,
}

impl<P: Policy> Spreading<P> {
    // Spreading over the policy, which may have been used already.
    pub fn new(below: P) -> Spreading<P>
        ensures { result.below ≡ below }
    {
        Spreading { below }
    }
}

impl<P: Policy> Policy for Spreading<P> {
    const HOLDS: bool = P::HOLDS;

    ghost HOLDS = { P.Policy.HOLDS };

    ghost meaning = { λ p. spread (P.Policy.meaning p.below) };

    ghost sound = { λ p c b. P.Policy.sound p.below c b };

    ghost holding = { λ p. P.Policy.holding p.below };

    ghost shaped = { λ p. spread_shaped (P.Policy.meaning p.below) (P.Policy.shaped p.below) };

    ghost fresh = { Prim.search rules };

    ghost timely = { Prim.search rules };

    ghost shortened = { λ p c b d a. P.Policy.shortened p.below c b d a };

    fn offer(&mut self, clock: u32, base: u64, entry: Entry) -> Result<u64, NoPlace> {
        let bank = passed_down(self.below.banks(), entry.bank, entry.row);
        self.below.offer(clock, base, Entry { bank, ..entry })
    }

    fn turn(&mut self, clock: u32) -> Option<Entry> {
        self.below.turn(clock)
    }

    fn requesters(&self) -> u8 {
        self.below.requesters()
    }

    fn span(&self) -> u32 {
        self.below.span()
    }

    fn banks(&self) -> u8 {
        self.below.banks()
    }

    fn reach(&self) -> u32 {
        self.below.reach()
    }

    fn clock(&self) -> u32 {
        self.below.clock()
    }
}

// The bank under which a bank and row are passed down. The bank count is that of any policy, so no type has its limit.
fn passed_down(banks: u8, bank: u8, row: u16) -> u8
    requires { 1 ≤ banks }
    ensures { result ≡ spread_bank banks bank row }
{
    ((u32::from(bank) + u32::from(row)) % u32::from(banks)) as u8
}
