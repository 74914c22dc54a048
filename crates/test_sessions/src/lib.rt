//! Tests of what runs at once below a book: sessions at a desk that has no protocol, the lock at a
//! list of entries, and finders that look at published views. Those of a book stand in `test_book`,
//! and the program's own sessions are cases of `liq_cases`.
//!
//! They say what no clause says: calls come back, each is entered, hinted, made and left in this
//! order, and no thread is left out; a pane is let in, a publication is seen by the next look, and
//! each answer is that of the version that it names also while the next one is made.
#![tactic(auto)]

#[cfg(test)]
mod tests;
