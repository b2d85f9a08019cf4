// A session: the controller at work.
ghost use Rattle.std.specs.Prelude.{◌+◌, ◌≤◌};

use crate::counts::Counts;
use crate::engine::Engine;
use sheet::Board;

mod offering; // taking an offer
mod opening; // opening a session
mod ticking; // passing one cycle

// A board, a policy, the last cycle that can be ticked, the next cycle to be ticked, what is in service, and the counts of accepted offers. Of its trace it keeps, in the engine, only what the rules still need. Offers and ticks alone change it.
#[derive(Drop)]
pub struct Session<P> {
    board: Board,
    policy: P,
    last: u32,
    clock: u32,
    engine: Engine,
    counts: Counts,
    ghost last_in: { (1 ≤ last) × (last ≤ 4000000000) },
    ghost clock_in: { (1 ≤ clock) × (clock ≤ last + 1) },
}
