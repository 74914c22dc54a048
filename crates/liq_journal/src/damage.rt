//! Where and how a disk is damaged.

/// The first fault of a damaged disk.
#[derive(Clone, Copy)]
pub struct Damage {
    /// The number of the damaged record; 0 is the header with its checkpoint.
    pub index: u64,
    pub what: What,
}

#[derive(Clone, Copy)]
pub enum What {
    /// The bytes have another digest than the one that is stored behind them.
    Digest {
        stored: [u8; 32],
        computed: [u8; 32],
    },
    /// A field that begins at this place of the disk fits nothing.
    Form {
        place: u64,
    },
    /// The rules refuse the record, with this code; or it is a repetition, and the code is 0.
    Replay {
        code: u8,
    },
}
