// What the programs print, as text.
#![tactic(auto)]

mod gaps; // the two cycles between which a gap is missing
pub mod judging; // what is found of a trace, with the packed answer
pub mod sizing; // the timings of a sheet line in cycles, the stretches and the span
