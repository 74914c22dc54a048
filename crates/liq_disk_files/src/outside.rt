//! The system itself, as std has it.
ghost use Rattle.std.specs.Prelude.{[]};

use crate::calls::{Changed, Name, Opening, Refusal, Seen, Stream};
use crate::found::{FileId, Found};
use crate::handle::Handle;
use crate::streams::{behind, is_regular};
use crate::system::System;
use crate::user::effective_user;
use std::fs::{self, File, Files, TryLockError};
use std::io::{self, ErrorKind};
use std::os::unix::fs::{MetadataExt, OpenOptionsExt};
use std::path::{Path, PathBuf};

/// The system in which the program runs. It tells nothing of what it was asked: that each call here
/// asks for what its name says is for the reader to see.
#[derive(Drop)]
pub struct Outside<'a, R> {
    rt: &'a R,
}

impl<'a, R: Files<File = File> + AllocGlobal> Outside<'a, R> {
    pub fn new(rt: &'a R) -> Self {
        Outside { rt }
    }
}

impl<R: Files<File = File> + AllocGlobal> System for Outside<'_, R> {
    ghost tells = { ⊥ };

    ghost asked = { λ _. [] };

    fn user(&mut self) -> Option<u32> {
        effective_user(self.rt)
    }

    fn behind(&mut self, stream: Stream) -> Option<FileId> {
        behind(self.rt, stream).ok()
    }

    fn is_regular(&mut self, stream: Stream) -> bool {
        is_regular(self.rt, stream)
    }

    fn named(&mut self, name: Name) -> Result<Found, Refusal> {
        match fs::metadata(self.rt, name.text()) {
            Ok(told) => Ok(Found::of(&told)),
            Err(fault) => Err(refusal(&fault)),
        }
    }

    fn look(&mut self, name: Name) -> Result<bool, Refusal> {
        match fs::metadata(self.rt, name.text()) {
            Ok(told) => Ok(told.is_file()),
            Err(fault) => Err(refusal(&fault)),
        }
    }

    fn open(&mut self, name: Name, how: Opening) -> Result<Handle, Refusal> {
        let opened = File::options()
            .read(how.read)
            .write(how.write)
            .truncate(how.truncate)
            .create_new(how.create_new)
            .mode(how.mode)
            .open(self.rt, name.text());
        match opened {
            Ok(file) => Ok(Handle::of(file)),
            Err(fault) => Err(refusal(&fault)),
        }
    }

    fn told(&mut self, file: &Handle) -> Option<Found> {
        file.told()
    }

    fn see(&mut self, path: &str) -> Option<Seen> {
        let told = fs::symlink_metadata(self.rt, path).ok()?;
        Some(Seen {
            found: Found::of(&told),
            is_link: told.is_symlink(),
            changed: Changed {
                seconds: told.ctime(),
                nanos: told.ctime_nsec(),
            },
        })
    }

    fn read_link(&mut self, link: &str) -> Option<PathBuf> {
        let held = fs::read_link(self.rt, link).ok()?;
        Path::new(link)
            .parent()?
            .join(self.rt.alloc(), held.as_str())
            .ok()
    }

    fn lock(&mut self, file: &Handle) -> Result<(), TryLockError> {
        file.lock()
    }

    fn sync_folder(&mut self, name: Name) -> bool {
        sync_folder(self.rt, name.text()).is_ok()
    }
}

fn refusal(fault: &io::Error) -> Refusal {
    match fault.kind() {
        ErrorKind::NotFound => Refusal::Missing,
        ErrorKind::AlreadyExists => Refusal::Exists,
        ErrorKind::PermissionDenied => Refusal::Denied,
        _ => Refusal::Other,
    }
}

/// Syncs the folder in which the file of this name really is, so that one that was just made is
/// there after a loss of power too: this one, or that of a link's target.
fn sync_folder<R: Files<File = File> + AllocGlobal>(rt: &R, name: &str) -> io::Result<()> {
    if !fs::symlink_metadata(rt, name)?.is_symlink() {
        return File::open(rt, ".")?.sync_all();
    }
    let target = fs::canonicalize(rt, name)?;
    match target.parent() {
        Some(folder) => File::open(rt, folder)?.sync_all(),
        None => Err(io::Error::from(ErrorKind::NotFound)),
    }
}
