//! An open file, with which nothing is done but what is asked of it here.
ghost use Rattle.std.specs.Prelude.{◌≡◌, ◌≤ℤ◌, Some, pos, IfSome};
ghost use Rattle.std.specs.Fd.{file_raw_fd};

use crate::found::Found;
use liq_outside::FileDisk;
use std::fs::{File, TryLockError};
use std::marker::Model;

/// A file that the system opened. Contracts see std's; no other module reaches it, so nobody
/// unlocks, cuts or writes it before it is a disk.
#[derive(Drop)]
pub struct Handle {
    file: File,
}

impl Model for Handle {
    ghost use Rattle.std.specs.declared.fs.File.{File};

    ghost Value = { File };

    ghost view = { λ h. h.file };
}

impl Handle {
    pub(crate) fn of(file: File) -> Handle
        ensures { result ≡ file }
    {
        Handle { file }
    }

    pub(crate) fn told(&self) -> Option<Found> {
        Some(Found::of(&self.file.metadata().ok()?))
    }

    pub(crate) fn lock(&self) -> Result<(), TryLockError> {
        self.file.try_lock()
    }

    /// The disk over it, untouched.
    pub(crate) fn into_disk(self) -> FileDisk
        ensures taken { pos 3 ≤ℤ file_raw_fd self → result.device ≡ Some self }
        ensures apart { IfSome result.device (λ f. (Some self ≡ Some f) × (pos 3 ≤ℤ file_raw_fd f)) }
        ensures moment { result.moment ≡ 0 }
        ensures faults { result.faults ≡ 0 }
    {
        let Handle { file } = self;
        FileDisk::new(Some(file))
    }
}
