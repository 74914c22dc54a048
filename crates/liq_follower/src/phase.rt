//! Where in a journal a follower is. The crate's head draws how one phase leads to another.

/// What the next byte belongs to.
#[derive(Clone, Copy)]
pub enum Phase {
    /// The header, of which no byte is taken.
    Start,
    /// The header, behind its open gate.
    Header,
    /// The gate of a record.
    Gate,
    /// A record, behind its open gate.
    Inside,
    /// Nothing: a gate before it is closed.
    Shut,
    /// The record of this number is damaged, or the header, which is 0. No byte is taken.
    Damaged { index: u64 },
    /// The journal is of this generation, not of the first. No byte is taken.
    Rotated { generation: u64 },
}
