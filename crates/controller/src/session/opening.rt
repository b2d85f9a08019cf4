// Opening a session.
ghost use Rattle.std.specs.Prelude.{◌≡◌, ◌≤◌, MatchResult};
ghost use Rattle.controller.specs.Session.{opening_refusal, Opens, HandsBack};
ghost use Rattle.controller.specs.Opening.{opening_refused};

use crate::counts::Counts;
use crate::engine::Engine;
use crate::refusals::OpeningRefusal;
use crate::session::Session;
use policy::Policy;
use sheet::Board;

impl<P: Policy> Session<P> {
    // Opens a session at clock 1 with nothing in service, nothing accepted and nothing sent; whatever calls follow, it keeps all promises. A refusal hands the policy back, as a pair: a type for it would only be taken apart.
    pub fn open(board: Board, policy: P, last: u32) -> Result<Session<P>, (OpeningRefusal, P)>
        ensures { MatchResult result (λ s. Opens P.meaning P.sound board.sheet board.chip last policy s) (λ e. HandsBack P.meaning board.sheet board.chip last policy e.0 e.1) }
    {
        if let Err(why) = check(&board, &policy, last) {
            return Err((why, policy));
        }
        Ok(Session {
            board,
            policy,
            last,
            clock: 1,
            engine: Engine::new(),
            counts: Counts::new(),
        })
    }
}

// Refused by the first reason against opening, if there is one.
fn check<P: Policy>(board: &Board, policy: &P, last: u32) -> Result<(), OpeningRefusal>
    ensures number { opening_refused result ≡ opening_refusal board.now.sheet board.now.chip last (P.meaning policy.now) }
{
    if policy.span() != board.sheet.span(&board.chip).count()
        || u32::from(policy.banks()) != board.chip.banks
    {
        return Err(OpeningRefusal::Shape);
    }
    if policy.clock() != 0 {
        return Err(OpeningRefusal::Used);
    }
    if !(1..=4_000_000_000).contains(&last) {
        return Err(OpeningRefusal::LastCycle);
    }
    Ok(())
}
