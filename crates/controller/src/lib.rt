// The controller: a session over one chip, one sheet and any policy. It is opened, takes offers, and is ticked through its cycles; each tick answers the command of its cycle, or none.
#![tactic(auto)]

mod counts; // how many offers of each requester were accepted
mod engine; // what is in service, and which command it sends in a cycle
pub mod receipt; // what is answered to an accepted offer
pub mod refusals; // why opening, offering and ticking are refused
mod requests; // whether a request is proper
pub mod session; // a session: opening, offers, ticks
pub mod stage; // what a session has in service

pub use receipt::Receipt;
pub use refusals::{OfferRefusal, OpeningRefusal, TickRefusal};
pub use session::Session;
