// Worked examples of the policies, long runs of calls that a plain recount follows, and a caller that knows the trait alone.
#![tactic(auto)]

pub mod caller; // a first cycle over any policy, proved from the trait
#[cfg(test)]
mod recount; // what waits, kept apart from any policy, and the points counted over it
#[cfg(test)]
mod run; // a run of offers and ticks as a controller would make them
#[cfg(test)]
mod tests; // the tests
