// Worked examples of what is told of a trace.
#![tactic(auto)]

#[cfg(test)]
mod broken; // rules that are broken, with the two cycles where the rule is a gap
#[cfg(test)]
mod passing; // traces that pass
#[cfg(test)]
mod refused; // inputs that are refused
#[cfg(test)]
mod small; // the sheet of the examples
