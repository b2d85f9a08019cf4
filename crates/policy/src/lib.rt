// Policies: who is served next, and by which cycle at the latest. One trait with its laws, two orders of service, and a layer over any policy.
#![tactic(auto)]

pub mod contract; // the policy trait: meaning, laws and calls
pub mod entry; // requests, and entries that wait with their deadlines
pub mod first_come; // an order of service: entries in the order in which they came
pub mod in_order; // a policy that serves the entries of a room in an order
pub mod making; // making the numbers of a policy, and why they are refused
pub mod numbers; // the four numbers that a policy is made for
pub mod order; // the trait of the orders of service over a room: what each decides, and its laws
pub mod room; // the entries that wait, with the numbers and the clock: what every order keeps
pub mod spreading; // a layer over any policy that spreads rows over the banks
pub mod turn_order; // an order of service: entries in slots that belong to the requesters in turn

pub use contract::{NoPlace, Policy};
pub use entry::{Entry, Request};
pub use first_come::FirstCome;
pub use in_order::InOrder;
pub use making::PolicyRefusal;
pub use numbers::Numbers;
pub use order::ServiceOrder;
pub use spreading::Spreading;
pub use turn_order::TurnOrder;
