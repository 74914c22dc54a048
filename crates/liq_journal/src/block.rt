//! A part of a disk that was read at once, so that an opening makes few device calls for many
//! records.
ghost use Rattle.std.specs.Prelude.{◌≡◌, ◌≤◌, [], length, take, IfOk, IfSome, OnOk};
ghost use Rattle.liq_outside.specs.Disk.{Looked};
ghost use Rattle.liq_outside.specs.Faults.{HasCause};
ghost use Rattle.liq_journal.specs.Looked.{IsRead};
ghost use Rattle.liq_journal.specs.Parts.{IsPartOf, bytes_from};
ghost use Rattle.liq_disk_header.specs.Layout.{piece};

use crate::journal::RECORD_BYTES;
use crate::reads::read_at;
use liq_outside::{Disk, Failed};
use std::marker::Model;

// How many bytes are read at once: those of 508 records, just below 64 KiB.
const BLOCK_BYTES: usize = 508 * RECORD_BYTES as usize;

/// A part of a disk, read at once, from which records are taken one after the other. A contract
/// sees where it begins, and its bytes.
#[derive(Drop)]
pub struct Block {
    at: u64,
    count: usize,
    bytes: [u8; BLOCK_BYTES],
}

impl Model for Block {
    ghost use Rattle.std.specs.Prelude.{◌≤◌, take};
    ghost use Rattle.liq_journal.specs.Parts.{Part};
    ghost use Rattle.liq_journal.specs.declared.block.TheConstants.{BLOCK_BYTES};

    ghost Value = { Part };

    ghost view = { λ b. record { at = b.at; bytes = take b.count b.bytes } };

    ghost invariant = { λ b. b.count ≤ BLOCK_BYTES };
}

impl Block {
    /// A block of no bytes.
    pub fn new() -> Block
        ensures { result ≡ record { at = 0; bytes = [] } }
    {
        Block {
            at: 0,
            count: 0,
            bytes: [0; BLOCK_BYTES],
        }
    }

    // Its bytes from this place of the disk on.
    fn from(&self, at: u64) -> &[u8]
        ensures { result.now ≡ bytes_from at self.now }
    {
        let bytes = &self.bytes[..self.count];
        match at.checked_sub(self.at) {
            Some(skipped) if skipped <= bytes.len() as u64 => &bytes[skipped as usize..],
            _ => &[],
        }
    }

    // Reads the disk from this place on.
    fn fill<D: Disk>(&mut self, disk: &mut D, at: u64) -> Result<(), Failed>
        ensures at { self.new.at ≡ at }
        ensures filled { OnOk result (IfSome (D.at disk.old).seen
            (λ held. self.new.bytes ≡ piece at BLOCK_BYTES held)) }
        ensures part { IfSome (D.at disk.old).seen (IsPartOf self.new) }
        ensures looked { Looked D.at disk.old disk.new }
        ensures cause { HasCause (D.at disk.old).faults (D.at disk.new).faults result }
    {
        self.at = at;
        self.count = 0;
        self.count = read_at(disk, at, &mut self.bytes)?;
        Ok(())
    }

    // Sees to it that so many bytes from this place on are in the block, or all that the disk has
    // there.
    fn reach<D: Disk>(&mut self, disk: &mut D, at: u64, count: usize) -> Result<(), Failed>
        requires few { count ≤ BLOCK_BYTES }
        requires part { IfSome (D.at disk.old).seen (IsPartOf self.old) }
        ensures reached { OnOk result (IfSome (D.at disk.old).seen
            (λ held. take count (bytes_from at self.new) ≡ piece at count held)) }
        ensures part { IfSome (D.at disk.old).seen (IsPartOf self.new) }
        ensures looked { Looked D.at disk.old disk.new }
        ensures cause { HasCause (D.at disk.old).faults (D.at disk.new).faults result }
    {
        if count <= self.from(at).len() {
            return Ok(());
        }
        self.fill(disk, at)
    }

    // Copies its bytes from a place on into the front of `buf`: what a read of the disk gives,
    // which comes only where it hasn't all of them.
    pub(crate) fn copy<D: Disk>(
        &mut self,
        disk: &mut D,
        at: u64,
        buf: &mut [u8],
    ) -> Result<usize, Failed>
        requires few { length buf.old ≤ BLOCK_BYTES }
        requires part { IfSome (D.at disk.old).seen (IsPartOf self.old) }
        ensures fits { IfOk result (λ n. n ≤ length buf.old) }
        ensures told { IfOk result (λ n. IfSome (D.at disk.old).seen
            (IsRead at (length buf.old) n buf.new)) }
        ensures part { IfSome (D.at disk.old).seen (IsPartOf self.new) }
        ensures looked { Looked D.at disk.old disk.new }
        ensures cause { HasCause (D.at disk.old).faults (D.at disk.new).faults result }
    {
        self.reach(disk, at, buf.len())?;
        let bytes = self.from(at);
        let count = bytes.len().min(buf.len());
        buf[..count].copy_from_slice(&bytes[..count]);
        Ok(count)
    }
}
