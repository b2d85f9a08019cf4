// Worked examples of the checker: for every rule a trace that breaks it alone and one that passes, and which reason is told first.
#![tactic(auto)]

#[cfg(test)]
mod cases; // sheet lines, and the rules' examples as data
#[cfg(test)]
mod order; // examples of what is told first, as data
#[cfg(test)]
mod tests; // the tests
