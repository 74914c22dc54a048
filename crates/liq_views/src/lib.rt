//! Published views of the ordered list, and the finders that look for hints in them.
//!
//! One publisher hands out versions, each made of the one before by a batch of changes. Finders
//! look at the version that was published last, with no lock and without waiting.
//!
//! ```text
//! changes --> a batch --> the hidden copy follows it and is shown --> each look is of it
//!                         the copy that was shown is hidden, and follows the batch later
//! ```
//!
//! There is one list of batches. What is shown is made by a beginning of it, and what each end has
//! seen is one too, so that no look goes back behind an earlier one. Where there is no memory a
//! batch waits for the next publication. Only the publisher waits: for looks at the copy that it
//! writes.
#![tactic(auto)]

mod batch;
mod finder;
pub mod laws;
mod pane;
mod publisher;
mod rule;
mod shelf;
mod window;

pub use batch::Batch;
pub use finder::Finder;
pub use liq_list_version::{Ask, Version};
pub use pane::Pane;
pub use publisher::{Publication, Publisher};
pub use rule::{Published, Sight};
pub use shelf::Shelf;
pub use window::{Shown, Shut, Window};
