// Passing one cycle.
ghost use Rattle.std.specs.Prelude.{◌≡◌, ◌+◌, ◌-◌, ◌≤◌, []};
ghost use Rattle.machine.specs.Machine.{tick as ticked};
ghost use Rattle.controller.specs.Session.{machine, tick_answer, tick_refused, tick_refusal, UnlessRefused, sent_after, Carries};
ghost use Rattle.controller.specs.Ticking.{stage_from, Begins, Passes};

use crate::refusals::TickRefusal;
use crate::session::Session;
use crate::stage::{Service, Stage};
use policy::{Entry, Policy};
use rulebook::Command;

impl<P: Policy> Session<P> {
    // Passes one cycle and answers its command, or none, as a step of the machine. A refusal leaves the session as it was.
    pub fn tick(&mut self) -> Result<Option<Command>, TickRefusal>
        ensures refusal { tick_refused result ≡ tick_refusal (machine P.meaning self.old []) }
        ensures kept { UnlessRefused result self.old self.new }
        ensures steps { Carries P.meaning P.sound self.old ticked (tick_answer result) self.new (λ h. sent_after h result) }
    {
        if self.clock > self.last {
            return Err(TickRefusal::Over);
        }
        Ok(self.pass())
    }

    // Passes one of the cycles that are left.
    fn pass(&mut self) -> Option<Command>
        requires { self.old.clock ≤ self.old.last }
        ensures { Passes P.meaning P.sound self.old result self.new }
    {
        begin(&mut self.engine.stage, &mut self.policy, self.clock);
        let command = self.engine.step(&self.board, P::HOLDS, self.clock);
        self.clock += 1;
        command
    }
}

// With nothing in service, asks the policy for a turn in this cycle; what it gives goes into service.
fn begin<P: Policy>(stage: &mut Stage, policy: &mut P, clock: u32)
    ensures { Begins P.meaning P.sound clock stage.old policy.old stage.new policy.new }
{
    if let Stage::Idle = *stage {
        *stage = stage_of(policy.turn(clock), clock);
    }
}

// The stage once the policy gave this entry in this cycle, or none.
fn stage_of(given: Option<Entry>, clock: u32) -> Stage
    ensures { result ≡ stage_from clock given }
{
    given.map_or(Stage::Idle, |entry| {
        Stage::Serving(Service {
            entry,
            start: clock,
        })
    })
}
