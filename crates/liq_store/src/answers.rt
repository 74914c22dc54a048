//! Why no store is opened.
use liq_disk_pair::Side;
use liq_journal::Damage;

/// Why no store was opened.
#[derive(Clone, Copy)]
pub enum StoreWhy {
    /// A device call failed in this call.
    DiskFault,
    /// The first damage of the two disks, all of the left one's coming first.
    Damaged { side: Side, damage: Damage },
    NoMemory,
}

/// No store was opened, and the disks are handed back.
#[derive(Drop)]
pub struct StoreFault<D> {
    pub left: D,
    pub right: D,
    pub why: StoreWhy,
}
