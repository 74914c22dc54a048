//! What the system is asked about, and how.
ghost use Rattle.std.specs.Prelude.{◌≡◌};
ghost use Rattle.liq_disk_files.specs.Names.{text_of};

use crate::found::Found;

/// The two files, by their names in the folder in which the program runs.
#[derive(Clone, Copy)]
pub enum Name {
    Left,
    Right,
}

impl Name {
    pub fn text(self) -> &'static str
        ensures { result.now ≡ text_of self }
    {
        match self {
            Name::Left => "left.liq",
            Name::Right => "right.liq",
        }
    }
}

/// The standard streams.
#[derive(Clone, Copy)]
pub enum Stream {
    Input,
    Output,
    Errors,
}

/// How a file is opened: what open(2) is asked for. What has no field here is never asked for.
#[derive(Clone, Copy)]
pub struct Opening {
    pub read: bool,
    pub write: bool,
    pub truncate: bool,
    pub create_new: bool,
    pub mode: u32,
}

/// Why the system refused: there is no such file, there is one already, it may not be looked up, or
/// something else.
#[derive(Clone, Copy)]
pub enum Refusal {
    Missing,
    Exists,
    Denied,
    Other,
}

/// When something was last changed.
#[derive(Clone, Copy, PartialEq, Eq)]
pub struct Changed {
    pub seconds: i64,
    pub nanos: i64,
}

/// What stands under a path itself: a link is not followed.
#[derive(Clone, Copy)]
pub struct Seen {
    pub found: Found,
    pub is_link: bool,
    pub changed: Changed,
}
