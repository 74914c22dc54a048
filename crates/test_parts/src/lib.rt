//! Worked rows of the protocol's parts: numbers, the base rate, wallets, surplus and borrowing; the
//! troves, their order and its guide, the Stability Pool and the audit of what it gives;
//! liquidations and redemptions. Tests of the public calls, with values that were worked out by
//! hand.
#![tactic(auto)]

#[cfg(test)]
mod checks;
#[cfg(test)]
mod numbers;
#[cfg(test)]
mod plans;
#[cfg(test)]
mod troves;
