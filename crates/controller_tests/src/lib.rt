// Worked examples of a session.
#![tactic(auto)]

#[cfg(test)]
mod small; // the small sheet, its chip, and requests
#[cfg(test)]
mod tests; // what sessions answer
