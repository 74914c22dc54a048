//! How feeding a piece ends, and how much of it was taken.

/// How feeding ended.
#[derive(Clone, Copy, PartialEq, Eq)]
pub enum FedEnd {
    /// The whole piece was taken.
    All,
    /// There is no memory for what the byte behind those that were taken would complete: a record,
    /// whose digest and form are right. Feeding may go on from that byte.
    NoMemory,
    /// The bytes are damaged: the record of this number is, or, where it is 0, the header.
    Damaged { index: u64 },
    /// The header is of this generation, which comes after the first. A follower has no checkpoint
    /// to begin from.
    Rotated { generation: u64 },
}

/// How many bytes of a piece were taken, and how that ended. A byte that shows a fault is taken.
#[derive(Clone, Copy, PartialEq, Eq)]
pub struct Fed {
    pub taken: usize,
    pub end: FedEnd,
}
