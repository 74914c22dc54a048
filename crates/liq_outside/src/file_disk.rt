//! A file as a device, and the disk over it. As such it tells no content: only faults are told.
ghost use Rattle.std.specs.Prelude.{◌≡◌, ◌≤ℤ◌, ◌≤◌, Some, None, pos, IfSome};
ghost use Rattle.std.specs.Fd.{file_raw_fd};
ghost use Rattle.std.specs.declared.fs.File.{File};

use super::device::Device;
use super::device_disk::DeviceDisk;
use super::failed::Failed;
use std::fs::File;
use std::os::fd::AsRawFd;
use std::os::unix::fs::FileExt;

/// A file as a disk: each call reads or writes at its place, and `sync` is the system's
/// `fdatasync`.
///
/// Without a file every device call fails and is counted. A contract sees whether there is a file,
/// how many writes and syncs succeeded, and how many calls failed.
pub type FileDisk = DeviceDisk<File>;

impl DeviceDisk<File> {
    /// The disk of this file, or of none. A file that stands in the place of a standard stream is
    /// none: what the program writes to that stream would be written over its bytes.
    pub fn new(file: Option<File>) -> Self
        ensures taken { (f : File) → file ≡ Some f → pos 3 ≤ℤ file_raw_fd f
            → result.device ≡ Some f }
        ensures apart { IfSome result.device (λ f. (file ≡ Some f) × (pos 3 ≤ℤ file_raw_fd f)) }
        ensures moment { result.moment ≡ 0 }
        ensures faults { result.faults ≡ 0 }
    {
        match file {
            Some(file) if file.as_raw_fd() >= 3 => DeviceDisk::over(Some(file)),
            _ => DeviceDisk::over(None),
        }
    }
}

// Each call is one call of the system.
impl Device for File {
    ghost held = { λ _. None };

    ghost synced = { λ _. None };

    ghost failures = { λ _. None };

    fn length(&mut self) -> Result<u64, Failed> {
        match self.metadata() {
            Ok(found) => Ok(found.len()),
            Err(_) => Err(Failed),
        }
    }

    fn read_some(&mut self, at: u64, buf: &mut [u8]) -> Result<usize, Failed> {
        match self.read_at(buf, at) {
            Ok(count) => Ok(count),
            Err(_) => Err(Failed),
        }
    }

    // A write that takes none of a piece that isn't empty has failed too.
    fn write_some(&mut self, at: u64, bytes: &[u8]) -> Result<usize, Failed> {
        match self.write_at(bytes, at) {
            Ok(count) if count > 0 || bytes.is_empty() => Ok(count),
            _ => Err(Failed),
        }
    }

    fn sync(&mut self) -> Result<(), Failed> {
        match self.sync_data() {
            Ok(()) => Ok(()),
            Err(_) => Err(Failed),
        }
    }
}
