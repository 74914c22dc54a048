//! Lines: read one by one from a source, and bytes written whole to a sink.
//!
//! A reader holds one chunk of the source, and of a line at most one byte more than a line may
//! have: one that is longer is told, and nothing is taken behind that byte. So memory is bounded
//! whatever comes in. A line ends with a line end or with the source's end, behind which the source
//! is not asked again.
#![tactic(auto)]

mod reader;
mod stops;
mod writer;

pub use reader::{LINE_END, LineEnd, READ_BYTES, Reader, line_end_in};
pub use stops::Stop;
pub use writer::write_all;
