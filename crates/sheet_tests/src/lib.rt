// Worked examples of the sheet, the chip, the sheet line and what is printed of it.
#![tactic(auto)]

#[cfg(test)]
mod lines; // sheet lines
#[cfg(test)]
mod sheets; // sheets and chips
