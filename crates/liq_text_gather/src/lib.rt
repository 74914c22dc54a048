//! Lines that say something, read to the end of a source: into a list, or into what else gathers
//! them. Reading stops at the first line that says nothing that is asked for, at a fault of the
//! source, for want of memory, or at one line more than is read; what was gathered by then is what
//! the lines before say.
#![tactic(auto)]

mod form;
mod gatherer;
mod reading;

pub use form::{Form, gather};
pub use gatherer::Gatherer;
pub use liq_text_lines::Stop;
pub use reading::gather_into;
