//! The two files of the folder in which the program runs: which files are taken for them, and how
//! they are opened and held.
//!
//! ```text
//! name --> opened as it is, or made --> judged --> held by a lock --> both held: folders synced
//! ```
//!
//! A file is taken where it is a regular one, the user's own, and none that was taken before or
//! stands behind a standard stream. It is judged once it is open, so that the one judged is the one
//! used. Where a step fails there is no disk, and each call on it fails; nothing else is taken in
//! its place.
#![tactic(auto)]

mod calls;
mod files;
mod found;
mod handle;
mod names;
mod outside;
mod streams;
mod system;
mod user;
mod written;

pub use calls::{Changed, Name, Opening, Refusal, Seen, Stream};
pub use files::{disks, no_disks};
pub use found::{FileId, Found};
pub use handle::Handle;
pub use outside::Outside;
pub use system::System;
pub use written::{Written, standard_output};
