//! Worked rows of fees that stakers share, and of reward units: tests of the public calls, with
//! values that were worked out from the rules apart from the code.
#![tactic(auto)]

#[cfg(test)]
mod fees;
#[cfg(test)]
mod tests;
