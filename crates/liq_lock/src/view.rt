//! What a seat knows of the lock. No value of these types is made: they stand in contracts alone,
//! and the numbers in them have no upper bound there.
use std::collections::LinkedList;

/// What a seat knew when it was joined with another: the numbers for which it stood, and what it
/// had seen.
pub struct Past<I> {
    pub stands: LinkedList<u64>,
    pub seen: LinkedList<I>,
}

/// What a seat knows.
pub struct View<I> {
    /// Its number, from 1.
    pub number: u64,
    /// The numbers for which it stands: its own, and those of the seats that were joined into it.
    pub stands: LinkedList<u64>,
    /// The part of the history that it has seen.
    pub seen: LinkedList<I>,
    /// The ticket with which it waits for its turn, or has it.
    pub ticket: Option<u64>,
    /// Whether it has its turn, and so the value.
    pub inside: bool,
    /// The shares of the lock that it holds, each for one seat.
    pub shares: u64,
    /// Whether seats are still to be made out of it.
    pub splitting: bool,
    /// The number of the next seat that is made out of it.
    pub next: u64,
    /// What the two seats of the last join had seen, until this one sees more.
    pub left: Past<I>,
    pub right: Past<I>,
}
