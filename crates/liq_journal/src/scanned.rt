//! What an opening has read before it settles the disk.

// What was read of an open disk.
#[derive(Drop)]
pub struct Scanned {
    pub generation: u64,
    pub limit: u64,
    pub start: u64,
    pub count: u64,
    pub checkpoint: Vec<u8>,
}
