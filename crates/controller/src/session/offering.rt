// Taking an offer.
ghost use Rattle.std.specs.Prelude.{◌≡◌, ◌+◌, ◌-◌, []};
ghost use Rattle.machine.specs.Machine.{offer as offered, offer_refusal, base_at};
ghost use Rattle.controller.specs.Session.{machine, service_of, offer_answer, offer_refused, UnlessRefused, Carries};
ghost use Rattle.controller.specs.Offering.{wanted, entry_of, TakesIn};

use crate::counts::Counts;
use crate::receipt::Receipt;
use crate::refusals::OfferRefusal;
use crate::requests::wanted_kind;
use crate::session::Session;
use crate::stage::Stage;
use policy::{Entry, Policy, Request};
use rulebook::Kind;

impl<P: Policy> Session<P> {
    // Takes the request in and answers its number and deadline, as a step of the machine. A refusal leaves the session as it was.
    pub fn offer(&mut self, request: Request) -> Result<Receipt, OfferRefusal>
        ensures refusal { offer_refused result ≡ offer_refusal (machine P.meaning self.old []) request }
        ensures kept { UnlessRefused result self.old self.new }
        ensures steps { Carries P.meaning P.sound self.old (offered request) (offer_answer result) self.new (λ h. h) }
    {
        let kind = self.wanted(request)?;
        take_in(
            &mut self.policy,
            &mut self.counts,
            self.clock,
            self.engine.stage,
            request,
            kind,
        )
    }

    // What the request asks for, or the first reason against it that is not the policy's.
    fn wanted(&self, request: Request) -> Result<Kind, OfferRefusal>
        ensures { result ≡ wanted (machine P.meaning self.now []) request }
    {
        if request.requester >= self.policy.requesters() {
            return Err(OfferRefusal::Requester);
        }
        let kind = wanted_kind(&self.board.chip, request).ok_or(OfferRefusal::Request)?;
        if u64::from(self.clock - 1) + u64::from(self.policy.reach()) > u64::from(self.last) {
            return Err(OfferRefusal::Late);
        }
        Ok(kind)
    }
}

// Offers the policy a request of this kind, and counts it where the policy takes it.
// It takes these parts of a session and not the whole, so that its contract speaks of what it changes alone.
fn take_in<P: Policy>(
    policy: &mut P,
    counts: &mut Counts,
    clock: u32,
    stage: Stage,
    request: Request,
    kind: Kind,
) -> Result<Receipt, OfferRefusal>
    ensures { TakesIn P.meaning P.sound clock (service_of stage) request kind policy.old counts.old result policy.new counts.new }
{
    let number = counts.of(request.requester);
    let base = base_at(clock, policy.span(), stage);
    let deadline = policy.offer(clock, base, as_entry(request, number, kind))?;
    counts.note(request.requester);
    Ok(Receipt { number, deadline })
}

// The cycle from which the spans of the waiting entries are counted: the one before the clock, or the last one that the service may take.
fn base_at(clock: u32, span: u32, stage: Stage) -> u64
    ensures { result ≡ base_at clock span (service_of stage) }
{
    match stage {
        Stage::Idle => u64::from(clock.saturating_sub(1)),
        Stage::Serving(service) => {
            (u64::from(service.start) + u64::from(span)).saturating_sub(1)
        }
    }
}

// The request as it is handed to the policy, which gives it its deadline. One type for an entry with its deadline and without: the policy writes it in place.
fn as_entry(request: Request, number: u32, kind: Kind) -> Entry
    ensures { result ≡ entry_of request number kind }
{
    Entry {
        requester: request.requester,
        number,
        kind,
        bank: request.bank,
        row: request.row,
        column: request.column,
        deadline: 0,
    }
}
