// Worked examples of trace lines, read and written.
#![tactic(auto)]

#[cfg(test)]
mod forms; // one line: each byte at each place, and what each kind leaves 0
#[cfg(test)]
mod listing; // a whole listing both ways
#[cfg(test)]
mod refusals; // what is refused, in which order, and that nothing is altered then
#[cfg(test)]
mod told; // answers as plain numbers, and what stands where nothing is written
