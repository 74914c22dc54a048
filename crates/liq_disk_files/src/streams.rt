//! The files behind the standard streams.

use crate::calls::Stream;
use crate::found::{FileId, Found};
use std::fs::{self, Files};
use std::io;

/// The file behind a standard stream. The system says it under /proc alone; where it does not, the
/// call fails.
pub fn behind<F: Files>(files: &F, stream: Stream) -> io::Result<FileId> {
    Ok(Found::of(&fs::metadata(files, path_of(stream))?).id)
}

/// Whether a regular file is behind a standard stream, or may be.
pub fn is_regular<F: Files>(files: &F, stream: Stream) -> bool {
    match fs::metadata(files, path_of(stream)) {
        Ok(told) => told.is_file(),
        Err(_) => true,
    }
}

fn path_of(stream: Stream) -> &'static str {
    match stream {
        Stream::Input => "/proc/self/fd/0",
        Stream::Output => "/proc/self/fd/1",
        Stream::Errors => "/proc/self/fd/2",
    }
}
