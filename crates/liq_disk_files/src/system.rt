//! What is asked of the system, call by call.
ghost use Rattle.std.specs.Prelude.{◌≡◌, ◌∷◌, List};
ghost use Rattle.liq_disk_files.specs.Names.{path_in};
ghost use Rattle.liq_disk_files.specs.Asked.{Asked, User, Behind, Named, Regular, Looked, Opened, Told, Saw, Read, Locked, Synced};

use crate::calls::{Name, Opening, Refusal, Seen, Stream};
use crate::found::{FileId, Found};
use crate::handle::Handle;
use std::fs::TryLockError;
use std::path::PathBuf;

/// What the two files are opened and taken by. Each call asks the system one thing.
pub trait System {
    /// Whether it tells what it was asked.
    ghost tells: { Type 0 };

    /// What it was asked so far, and what it answered, the last call first.
    ghost asked: { Self → List Asked };

    /// The number of the effective user.
    fn user(&mut self) -> Option<u32>
        ensures { tells → asked self.new ≡ User result ∷ asked self.old };

    /// The file behind a standard stream.
    fn behind(&mut self, stream: Stream) -> Option<FileId>
        ensures { tells → asked self.new ≡ Behind stream result ∷ asked self.old };

    /// Whether a regular file is behind a standard stream, or may be.
    fn is_regular(&mut self, stream: Stream) -> bool
        ensures { tells → asked self.new ≡ Regular stream result ∷ asked self.old };

    /// The file to which the name leads.
    fn named(&mut self, name: Name) -> Result<Found, Refusal>
        ensures { tells → asked self.new ≡ Named name result ∷ asked self.old };

    /// Whether a regular file is what the name leads to.
    fn look(&mut self, name: Name) -> Result<bool, Refusal>
        ensures { tells → asked self.new ≡ Looked name result ∷ asked self.old };

    /// Opens the file of this name.
    fn open(&mut self, name: Name, how: Opening) -> Result<Handle, Refusal>
        ensures { tells → asked self.new ≡ Opened name how result ∷ asked self.old };

    /// Which file it is that is open, whose and of which kind.
    fn told(&mut self, file: &Handle) -> Option<Found>
        ensures { tells → asked self.new ≡ Told file.now result ∷ asked self.old };

    /// What stands under this path itself.
    fn see(&mut self, path: &str) -> Option<Seen>
        ensures { tells → asked self.new ≡ Saw path.now result ∷ asked self.old };

    /// The path that a link holds, as it is from here.
    fn read_link(&mut self, link: &str) -> Option<PathBuf>
        ensures { tells → asked self.new ≡ Read link.now (path_in result) ∷ asked self.old };

    /// Takes the file's lock for this process alone, without waiting.
    fn lock(&mut self, file: &Handle) -> Result<(), TryLockError>
        ensures { tells → asked self.new ≡ Locked file.now result ∷ asked self.old };

    /// Syncs the folder in which the file of this name really is: this one, or that of a link's
    /// target. Says whether it was done.
    fn sync_folder(&mut self, name: Name) -> bool
        ensures { tells → asked self.new ≡ Synced name result ∷ asked self.old };
}
