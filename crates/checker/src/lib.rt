// The checker: it judges traces by the rule book alone, and never sees a controller.
#![tactic(auto)]

pub mod judging; // judging a trace as text, by a sheet line
pub mod packing; // the answer as one number, for C
pub mod records; // judging command records
pub mod refusals; // why a trace does not pass, by number
pub mod texts; // judging text by a sheet and a chip, line by line
