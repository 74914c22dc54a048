//! A header that was read.

// The fields of a header whose places are right: which generation and how long a checkpoint, the
// limit of its version, the bytes of the fields, of which version 1 has the first 24 alone, and the
// digest that is stored behind them.
#[derive(Clone, Copy)]
pub struct Head {
    pub generation: u64,
    pub limit: u64,
    pub size: u64,
    pub fields: [u8; 32],
    pub stored: [u8; 32],
}
