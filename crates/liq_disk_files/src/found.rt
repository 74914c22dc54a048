//! What the system says of a file, and which files are taken.
ghost use Rattle.std.specs.Prelude.{◌↔◌, IsTrue};
ghost use Rattle.liq_disk_files.specs.Taking.{MayBeFollowed, MayBeTaken};

use std::fs::Metadata;
use std::os::unix::fs::MetadataExt;

// The bits of a mode that say what stands there, those of a regular file, and the bit by which
// others may write.
const KIND: u32 = 0o170000;

const REGULAR: u32 = 0o100000;

const OTHERS_WRITE: u32 = 0o2;

/// Which file it is: at one time no two files have the same device and the same number on it.
#[derive(Clone, Copy, PartialEq, Eq)]
pub struct FileId {
    pub device: u64,
    pub number: u64,
}

/// A file, with its owner's number and its mode, as the system keeps them.
#[derive(Clone, Copy)]
pub struct Found {
    pub id: FileId,
    pub owner: u32,
    pub mode: u32,
}

impl Found {
    /// What a look at a file has told.
    pub fn of(told: &Metadata) -> Found {
        Found {
            id: FileId {
                device: told.dev(),
                number: told.ino(),
            },
            owner: told.uid(),
            mode: told.mode(),
        }
    }
}

/// Whether the user may take the file for one of the two: a regular one (a device tells no length)
/// that is the user's own, or anybody's where the user is root; that others may not write; and that
/// stands for none of what is taken.
pub fn may_be_taken(file: &Found, user: u32, taken: &[FileId]) -> bool
    ensures { IsTrue result ↔ MayBeTaken user taken.now file.now }
{
    file.mode & KIND == REGULAR
        && (file.owner == user || user == 0)
        && file.mode & OTHERS_WRITE == 0
        && !taken.contains(&file.id)
}

/// Whether the user follows a link of this owner: the user's own or root's.
pub fn may_be_followed(owner: u32, user: u32) -> bool
    ensures { IsTrue result ↔ MayBeFollowed user owner }
{
    owner == user || owner == 0
}
