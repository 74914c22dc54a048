//! What the calls of a journal answer where they fail, and the faults of a look.
use crate::damage::Damage;
use liq_outside::Failed;

/// A device call failed in this call.
#[derive(Clone, Copy)]
pub struct DiskFault;

impl From<Failed> for DiskFault {
    fn from(_: Failed) -> Self {
        DiskFault
    }
}

/// What a look at a disk tells.
#[derive(Clone, Copy)]
pub enum Look {
    /// No journal is open on it: it has fewer than 57 bytes, or its gate isn't open.
    Absent,
    Open { generation: u64 },
}

/// Why a disk could not be looked at, or a record not be read.
#[derive(Clone, Copy)]
pub enum LookFault {
    DiskFault,
    Damaged(Damage),
}

/// The disk met a fault while a journal was created on it.
#[derive(Drop)]
pub struct CreateFault<D> {
    pub disk: D,
}

/// Why no journal was opened.
#[derive(Clone, Copy)]
pub enum OpenWhy {
    /// There is none: the disk has fewer than 57 bytes, or its gate isn't open.
    Absent,
    DiskFault,
    Damaged(Damage),
    NoMemory,
}

/// No journal was opened, and the disk is handed back.
#[derive(Drop)]
pub struct OpenFault<D> {
    pub disk: D,
    pub why: OpenWhy,
}
