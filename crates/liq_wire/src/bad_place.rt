//! Why bytes are no command.

use thiserror::Error;

/// The bytes are no command.
#[derive(Clone, Copy, Debug, Error)]
#[error("byte {place} begins a field that fits no command")]
pub struct BadPlace {
    /// Where the first field begins that fits no command.
    pub place: u8,
}
