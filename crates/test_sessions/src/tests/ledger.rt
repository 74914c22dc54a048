//! The value under the lock: a list of entries, each with the number of its seat.
use liq_lock::Chronicle;

/// An entry: who made it, and which of its own it is, from 1.
#[derive(Clone, Copy)]
pub struct Entry {
    pub by: u32,
    pub count: u32,
}

#[derive(Drop)]
pub struct Ledger {
    pub entries: Vec<Entry>,
}

impl Chronicle for Ledger {
    type Item = Entry;

    ghost history = { λ ledger. ledger.entries.items };

    ghost maker = { λ entry. entry.by };

    fn entries(&self) -> u64 {
        self.entries.len() as u64
    }
}
