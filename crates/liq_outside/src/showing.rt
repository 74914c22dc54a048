//! What a sink notes when it is shown two disks.

/// How many bytes a sink held when it was shown two disks, and the moment of each.
///
/// Contracts name its numbers. No body of another crate reads, compares or makes one.
#[derive(Clone, Copy, Drop)]
pub struct Showing {
    pub(crate) held: u64,
    pub(crate) left: u64,
    pub(crate) right: u64,
}
