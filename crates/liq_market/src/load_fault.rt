//! Why bytes give no market.

use thiserror::Error;

/// Why no market is loaded from bytes.
#[derive(Clone, Copy, Debug, PartialEq, Eq, Error)]
pub enum LoadFault {
    /// They are the save of no image, whatever the records beside it.
    #[error("the bytes are no save, or not as they were saved")]
    Damaged,
    /// They are the save of an image that breaks this rule of the eleven beside its records, and
    /// none before it: no market has it.
    #[error("the image of the save breaks rule {rule}")]
    Unsound { rule: u8 },
    /// There is no memory for the market.
    #[error("no memory for the market of a save")]
    NoMemory,
}
