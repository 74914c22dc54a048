//! The disks between two runs, and what is done to them there.

use crate::devices::Outcome;
use liq_case_files::{Misread, Side, Start, changed, number};
use liq_outside::MemoryDisk;
use std::alloc::{AllocError, Global};
use std::mem;

/// Both disks between two runs.
pub struct Disks {
    left: MemoryDisk,
    right: MemoryDisk,
}

// odd: drop written out
impl Drop for Disks {
    fn drop(self) {
        let Disks { left: _, right: _ } = self;
    }
}

impl Disks {
    /// Disks that hold nothing.
    pub fn new(alloc: Global) -> Disks {
        Disks {
            left: holding(alloc, Vec::new(alloc)),
            right: holding(alloc, Vec::new(alloc)),
        }
    }

    /// What they hold.
    pub fn start(&self, alloc: Global) -> Result<Start, AllocError> {
        let left = self.left.bytes().to_vec(alloc)?;
        let right = self.right.bytes().to_vec(alloc)?;
        Ok(Start { left, right })
    }

    /// Takes those that a run leaves.
    pub fn take(&mut self, outcome: &mut Outcome) {
        mem::swap(&mut self.left, &mut outcome.ended.left);
        mem::swap(&mut self.right, &mut outcome.ended.right);
    }

    /// Changes what the disk of a side holds, as words say whose first names the disk.
    pub fn change(&mut self, alloc: Global, side: Side, words: &[&str]) -> Result<(), Misread> {
        match side {
            Side::Left => change(alloc, &mut self.left, words),
            Side::Right => change(alloc, &mut self.right, words),
        }
    }
}

/// A disk that holds these bytes.
fn holding(alloc: Global, bytes: Vec<u8>) -> MemoryDisk {
    MemoryDisk::new(alloc, bytes, Vec::new(alloc))
}

/// Crashes a disk, by this choice.
pub fn crash(alloc: Global, disk: &mut MemoryDisk, choice: u64) {
    let before = mem::replace(disk, holding(alloc, Vec::new(alloc)));
    *disk = before.crash(choice);
}

fn change(alloc: Global, disk: &mut MemoryDisk, words: &[&str]) -> Result<(), Misread> {
    match words {
        [_, "crash", choice] => crash(alloc, disk, number(choice)?),
        words => {
            let held = changed(alloc, disk.bytes(), words)?;
            *disk = holding(alloc, held);
        }
    }
    Ok(())
}
