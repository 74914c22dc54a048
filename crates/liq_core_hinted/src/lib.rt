//! A protocol whose list is asked with the hint of a guide.
//!
//! The guide is the list as sorted entries (`liq_list_index`). While room is reserved for a command
//! it is ahead of the protocol's list by just that command's changes:
//!
//! ```text
//! as the list is -- reserve --> ahead by a command -- apply it --> as the list is
//!                                                  -- apply another --> says nothing: made anew
//! ```
//!
//! Of several hints one counts: the guide's, else the command's own words, else the one that is
//! given. None changes a reply, an image or the list; contracts see the protocol alone.
#![tactic(auto)]

mod guided;
mod hints;
mod list_guide;

pub use guided::Guided;
pub use hints::{Hints, words_of};
