//! Which types are disks.

// The disks of this crate. No other crate can name this, so none has a disk of its own, which would
// be handed a `Key`.
pub trait Ours {}
