// Worked examples of the rule book: for every rule a trace that breaks it and one that just does not, and traces at the edges.
#![tactic(auto)]

#[cfg(test)]
mod cases; // the examples as data
#[cfg(test)]
mod judging; // making a sheet of an example, and judging a trace
#[cfg(test)]
mod tests; // the tests
