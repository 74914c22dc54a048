//! A journal that is open: its disk, its generation, the limit of its version, where its records
//! begin, and how many there are.
//!
//! ```text
//! create, open --> open -- append ----------> open, with one more record
//!                       -- begin_generation > open on the other disk, as the next generation
//!                                             without records; the old disk stays as it was
//! ```
//!
//! The count may be one above the most records that a replay accepts, so that the first record too
//! many is found and told.
ghost use Rattle.std.specs.Prelude.{◌≡◌, ◌≤◌, ◌<◌, ◌+◌, ◌^◌, ◌↔◌, Some, List, ℕ, true, length, OnOk, OnErr, IfOk, IfErr, IfSome, IsSome};
ghost use Rattle.std.specs.Result.{MatchResult};
ghost use Rattle.liq_types.specs.declared.amounts.TheConstants.{LIM};
ghost use Rattle.liq_types.specs.declared.requests.Command.{Command};
ghost use Rattle.liq_types.specs.Image.{IsLimit};
ghost use Rattle.liq_outside.specs.Disk.{IsLater, LeavesOnly, LeftNow, Looked, Only};
ghost use Rattle.liq_journal.specs.Bodies.{IsAccepted, IsBodyFault, IsJournalOf, IsRecorded, body_at};
ghost use Rattle.liq_journal.specs.Called.{Called, Lasts};
ghost use Rattle.liq_journal.specs.Calls.{SettledIn, creating_calls};
ghost use Rattle.liq_journal.specs.Causes.{CauseOfOpen, Counted, CountsLook};
ghost use Rattle.liq_journal.specs.Crash.{BeforeOrAfter, CrashOfCreate, IsBodyOf, ReadsOfCreate, Stands, beginning};
ghost use Rattle.liq_disk_header.specs.Header.{is_odd, is_generation, is_size};
ghost use Rattle.liq_journal.specs.Opened.{CrashOfOpen, IsAtRest, IsKept, IsOpened, IsUnshut, IsWhyOf, ReadsOfOpen};
ghost use Rattle.liq_journal.specs.Parts.{IsPartOf};
ghost use Rattle.liq_journal.specs.Settled.{IsSettled};
ghost use Rattle.liq_journal.specs.Written.{Open, Written, and_then, found_on, start_of};

use crate::answers::{CreateFault, DiskFault, LookFault, OpenFault, OpenWhy};
use crate::block::Block;
use crate::bytes::write_gated;
use crate::create::make;
use crate::open::open_on;
use crate::records::{read_body, read_command};
use crate::scanned::Scanned;
use liq_disk_header::{HEADER, record_bytes};
use liq_outside::Disk;
use liq_types::Command;
use liq_types::amounts::LIM;
use std::alloc::Global;
use std::marker::Model;
use std::mem;

// A gate byte, 96 bytes of a command and 32 of their digest.
pub const RECORD_BYTES: u64 = 129;

/// A journal on a disk. A contract sees the disk, the generation, the limit, the place of the first
/// record's gate and the number of records.
#[derive(Drop)]
pub struct Journal<D> {
    disk: D,
    generation: u64,
    limit: u64,
    start: u64,
    count: u64,
}

impl<D> Model for Journal<D> {
    ghost use Rattle.std.specs.Prelude.{◌≤◌};
    ghost use Rattle.liq_journal.specs.Opened.{CrashOfOpen, IsAtRest, IsKept, IsOpened, IsUnshut, IsWhyOf, ReadsOfOpen};
    ghost use Rattle.liq_disk_header.specs.Layout.{StartsWithin};
    ghost use Rattle.liq_journal.specs.Settled.{JournalOn};

    ghost Value = { JournalOn D };

    ghost view = { λ j. record {
      disk = j.disk;
      generation = j.generation;
      limit = j.limit;
      start = j.start;
      count = j.count;
    } };

    // The limit tells the version, and the records begin behind its header and at most 2^36 bytes;
    // a scan counts one record past the last that may be.
    ghost invariant = { λ j.
        (1 ≤ j.generation) × StartsWithin j.limit j.start × (j.count ≤ 1000001) };
}

impl<D: Disk> Journal<D> {
    /// A new journal of version 2 on this disk, without records. The generation is at least 1, and
    /// the checkpoint has at most 2^36 bytes, and none exactly in generation 1.
    ///
    /// A crash in it leaves a disk on which none is open, or the disk as it was, or with another
    /// byte at place 0, or the new journal, with any byte there until the last sync.
    pub fn create(disk: D, generation: u64, checkpoint: &[u8]) -> Result<Journal<D>, CreateFault<D>>
        requires from_one { 1 ≤ generation }
        requires limit { length checkpoint.now ≤ 2 ^ 36 }
        requires size { is_size generation (length checkpoint.now) ≡ true }

        ensures known { IfOk result (λ j. (j.generation ≡ generation) × (j.limit ≡ LIM)
            × (j.start ≡ start_of (beginning generation checkpoint.now)) × (j.count ≡ 0)) }
        ensures created { IfOk result (λ j. (held : List ℕ) → (D.at disk).seen ≡ Some held
            → (after : List ℕ) × ((D.at j.disk).seen ≡ Some after)
            × Stands (is_odd generation) after (beginning generation checkpoint.now)) }
        ensures settled { IfOk result (λ j. IfSome (D.at j.disk).seen
            (IsSettled j.generation j.start j.count)) }
        ensures durable { IfOk result (λ j. IfSome (D.at j.disk).seen
            (λ after. Only after (LeftNow D.at j.disk))) }
        ensures crash { MatchResult result
            (λ j. CrashOfCreate D.at disk j.disk generation checkpoint.now)
            (λ e. CrashOfCreate D.at disk e.disk generation checkpoint.now) }

        // What is read afterwards, after a fault too.
        ensures reads { MatchResult result
            (λ j. ReadsOfCreate D.at disk j.disk generation checkpoint.now)
            (λ e. ReadsOfCreate D.at disk e.disk generation checkpoint.now) }

        // How many device calls it makes: two fewer where a shut gate was at place 0.
        ensures calls { IfOk result (λ j. SettledIn D.at 0 (creating_calls checkpoint.now)
            disk j.disk) }

        ensures lasts { MatchResult result
            (λ j. Lasts D.at disk j.disk)
            (λ e. Lasts D.at disk e.disk) }
        ensures cause { MatchResult result
            (λ j. (D.at j.disk).faults ≡ (D.at disk).faults)
            (λ e. Counted (D.at disk).faults (D.at e.disk).faults) }
    {
        let mut disk = disk;
        match make(&mut disk, generation, checkpoint) {
            Ok(()) => Ok(Journal {
                disk,
                generation,
                limit: LIM,
                start: HEADER + checkpoint.len() as u64,
                count: 0,
            }),
            Err(_) => Err(CreateFault { disk }),
        }
    }

    /// Begins the next generation on the other disk, of version 2, with this checkpoint and without
    /// records. That disk is then this journal's, and `beside` is the one that the journal had, as
    /// it was. The checkpoint has 1 to 2^36 bytes.
    ///
    /// After `DiskFault` the journal is as it was, on its own disk. A crash leaves of the other
    /// disk what one in `create` leaves.
    pub fn begin_generation(&mut self, beside: &mut D, checkpoint: &[u8]) -> Result<(), DiskFault>
        requires more { self.old.generation + 1 < 2 ^ 64 }
        requires limit { length checkpoint.now ≤ 2 ^ 36 }
        requires size { is_size (self.old.generation + 1) (length checkpoint.now) ≡ true }

        ensures exchanged { OnOk result (beside.new ≡ self.old.disk) }
        ensures kept { OnErr result (self.new ≡ self.old) }
        ensures known { OnOk result ((self.new.generation ≡ self.old.generation + 1)
            × (self.new.limit ≡ LIM)
            × (self.new.start ≡ start_of (beginning (self.old.generation + 1) checkpoint.now))
            × (self.new.count ≡ 0)) }

        // The disk that was beside is the journal's at `Ok`, and still beside after a fault.
        ensures created { OnOk result ((held : List ℕ) → (D.at beside.old).seen ≡ Some held
            → (after : List ℕ) × ((D.at self.new.disk).seen ≡ Some after)
            × Stands (is_odd (self.old.generation + 1)) after
            (beginning (self.old.generation + 1) checkpoint.now)) }
        ensures settled { OnOk result (IfSome (D.at self.new.disk).seen
            (IsSettled self.new.generation self.new.start self.new.count)) }
        ensures durable { OnOk result (IfSome (D.at self.new.disk).seen
            (λ after. Only after (LeftNow D.at self.new.disk))) }
        ensures crash { MatchResult result
            (λ _. CrashOfCreate D.at beside.old self.new.disk
            (self.old.generation + 1) checkpoint.now)
            (λ _. CrashOfCreate D.at beside.old beside.new
            (self.old.generation + 1) checkpoint.now) }

        // What is read afterwards, after a fault too.
        ensures reads { MatchResult result
            (λ _. ReadsOfCreate D.at beside.old self.new.disk
            (self.old.generation + 1) checkpoint.now)
            (λ _. ReadsOfCreate D.at beside.old beside.new
            (self.old.generation + 1) checkpoint.now) }

        // It makes as many device calls as `create`.
        ensures calls { OnOk result (SettledIn D.at 0 (creating_calls checkpoint.now)
            beside.old self.new.disk) }

        ensures lasts { MatchResult result
            (λ _. Lasts D.at beside.old self.new.disk)
            (λ _. Lasts D.at beside.old beside.new) }
        ensures cause { MatchResult result
            (λ _. (D.at self.new.disk).faults ≡ (D.at beside.old).faults)
            (λ _. Counted (D.at beside.old).faults (D.at beside.new).faults) }
    {
        let generation = self.generation + 1;
        make(beside, generation, checkpoint)?;
        mem::swap(&mut self.disk, beside);
        self.generation = generation;
        self.limit = LIM;
        self.start = HEADER + checkpoint.len() as u64;
        self.count = 0;
        Ok(())
    }

    /// Opens the journal of a disk, of either version, and gives the checkpoint's bytes; `odd` says
    /// whether this disk has the odd generations. It begins with a sync, tests all of the disk, and
    /// shuts the byte behind the last whole record, or place 0 of a disk on which none is open.
    ///
    /// `Absent` comes where none is open, `Damaged` with the disk's first fault, `NoMemory` for
    /// want of it. Memory is asked for only behind a sound header and the right digest over its
    /// checkpoint, so want of it never stands for damage of these.
    pub fn open(alloc: Global, disk: D, odd: bool) -> Result<(Journal<D>, Vec<u8>), OpenFault<D>>
        ensures found { IfOk result (λ r. IfSome (D.at disk).seen
            (λ held. IsOpened odd held r.0.generation r.0.limit r.0.start r.0.count r.1.items)) }
        // It is one that this disk may have, also where the disk tells nothing.
        ensures generation { IfOk result (λ r. is_generation odd r.0.generation ≡ true) }
        ensures stands { IfOk result (λ r. (held : List ℕ) (w : Written)
            → (D.at disk).seen ≡ Some held → found_on odd held ≡ Open w
            → IfSome (D.at r.0.disk).seen (λ after. Stands odd after w)) }
        ensures settled { IfOk result (λ r. IfSome (D.at r.0.disk).seen
            (IsSettled r.0.generation r.0.start r.0.count)) }
        ensures durable { IfOk result (λ r. IfSome (D.at r.0.disk).seen
            (λ after. Only after (LeftNow D.at r.0.disk))) }
        ensures why { IfErr result (λ e. IfSome (D.at disk).seen (λ held. IsWhyOf odd held e.why)) }
        ensures kept { IfErr result (λ e. IsKept e.why → (D.at e.disk).seen ≡ (D.at disk).seen) }
        ensures absent { IfErr result (λ e. e.why ≡ OpenWhy.Absent
            → IfSome (D.at e.disk).seen (λ after. IsUnshut after → ⊥)) }
        ensures at_rest { IfErr result (λ e. IsAtRest e.why
            → IfSome (D.at e.disk).seen (λ after. Only after (LeftNow D.at e.disk))) }
        ensures crash { MatchResult result
            (λ r. CrashOfOpen D.at disk r.0.disk odd)
            (λ e. CrashOfOpen D.at disk e.disk odd) }
        ensures reads { MatchResult result
            (λ r. ReadsOfOpen D.at disk r.0.disk odd)
            (λ e. ReadsOfOpen D.at disk e.disk odd) }
        ensures lasts { MatchResult result
            (λ r. Lasts D.at disk r.0.disk)
            (λ e. Lasts D.at disk e.disk) }
        ensures cause { MatchResult result
            (λ r. (D.at r.0.disk).faults ≡ (D.at disk).faults)
            (λ e. CauseOfOpen e.why (D.at disk).faults (D.at e.disk).faults) }
    {
        let mut disk = disk;
        match open_on(alloc, &mut disk, odd) {
            Ok(scanned) => {
                let Scanned {
                    generation,
                    limit,
                    start,
                    count,
                    checkpoint,
                } = scanned;
                let journal = Journal {
                    disk,
                    generation,
                    limit,
                    start,
                    count,
                };
                Ok((journal, checkpoint))
            }
            Err(why) => Err(OpenFault { disk, why }),
        }
    }

    /// Adds a record: its bytes first, which count only once the gate before them is opened by a
    /// second write. At `Ok` it is on the disk. After `DiskFault` nothing more may be appended:
    /// open the disk again.
    ///
    /// A crash at any moment leaves the records before the call or with the new one.
    pub fn append(&mut self, body: &[u8; 96]) -> Result<(), DiskFault>
        requires few { self.old.count < 1000000 }
        requires settled { IfSome (D.at self.old.disk).seen
            (IsSettled self.old.generation self.old.start self.old.count) }

        ensures same { self.new ≡ record self.old {
          disk = self.new.disk;
          count = self.new.count;
        } }
        ensures one_more { OnOk result (self.new.count ≡ self.old.count + 1) }
        ensures no_more { OnErr result (self.new.count ≡ self.old.count) }

        // Where the disk tells its content.
        ensures appended { OnOk result ((held : List ℕ) (w : Written) (command : Command)
            → (D.at self.old.disk).seen ≡ Some held → Stands (is_odd self.old.generation) held w
            → IsBodyOf body.now command
            → (after : List ℕ) × ((D.at self.new.disk).seen ≡ Some after)
            × Stands (is_odd self.old.generation) after (and_then w command)) }
        ensures settled { OnOk result ((command : Command) → IsBodyOf body.now command
            → IfSome (D.at self.new.disk).seen
            (IsSettled self.new.generation self.new.start self.new.count)) }
        ensures durable { OnOk result (IfSome (D.at self.new.disk).seen
            (λ held. Only held (LeftNow D.at self.new.disk))) }
        ensures crash { (held : List ℕ) (w : Written) (command : Command)
            → (D.at self.old.disk).seen ≡ Some held → Only held (LeftNow D.at self.old.disk)
            → Stands (is_odd self.old.generation) held w → IsBodyOf body.now command
            → LeavesOnly D.at self.old.disk self.new.disk
            (BeforeOrAfter (is_odd self.old.generation) w command) }

        // What is read afterwards, after a fault too.
        ensures reads { (held after : List ℕ) (w : Written) (command : Command)
            → (D.at self.old.disk).seen ≡ Some held → Only held (LeftNow D.at self.old.disk)
            → Stands (is_odd self.old.generation) held w → IsBodyOf body.now command
            → (D.at self.new.disk).seen ≡ Some after
            → BeforeOrAfter (is_odd self.old.generation) w command after }

        // Its device calls: the record, a sync, the record's gate and a sync.
        ensures calls { OnOk result (IsLater D.at 4 self.old.disk self.new.disk) }
        ensures called { Called D.at self.old.disk self.new.disk result }
    {
        let gate = self.start + RECORD_BYTES * self.count;
        let record = record_bytes(self.generation, self.count + 1, body);
        write_gated(&mut self.disk, gate, &record)?;
        self.count += 1;
        Ok(())
    }

    /// The body of a record, whose number is from 1 to `records`. The journal and its disk stay as
    /// they are.
    ///
    /// `Damaged` comes only where the record's bytes have another digest than the one behind them,
    /// or are no command or a rotation, and never where the disk tells its content and this is the
    /// journal.
    pub fn body(&mut self, index: u64) -> Result<[u8; 96], LookFault>
        requires from_one { 1 ≤ index }
        requires there { index ≤ self.old.count }

        ensures same { self.new ≡ record self.old { disk = self.new.disk } }
        ensures command { IfOk result (λ body. (command : Command) × IsBodyOf body command) }
        ensures damaged { IfErr result (IsBodyFault self.old.generation index
            (body_at self.old.start index)) }

        // Where the disk tells its content.
        ensures accepted { (held : List ℕ) (w : Written) → (D.at self.old.disk).seen ≡ Some held
            → IsJournalOf self.old.generation self.old.start held w → index ≤ length w.commands
            → MatchResult result (IsAccepted self.old.start held w index)
            (λ why. why ≡ LookFault.DiskFault) }

        ensures looked { Looked D.at self.old.disk self.new.disk }
        ensures cause { CountsLook result (D.at self.old.disk).faults (D.at self.new.disk).faults }
    {
        let place = self.start + RECORD_BYTES * (index - 1);
        read_body(&mut self.disk, self.generation, index, place)
    }

    /// The command of a record, whose number is from 1 to `records`. The opening has tested it, so
    /// its digest is not worked out again, unless its body is no command. It is read through a
    /// block, which is a part of this disk or has no bytes, and is filled again where the record
    /// isn't in it: a block of another disk, or one from before a write to this one, must not be
    /// given. The journal and its disk stay as they are.
    ///
    /// `Damaged` comes only where the record's bytes have another digest than the one behind them,
    /// or are no command or a rotation, and never where the disk tells its content and this is the
    /// journal.
    pub fn command(&mut self, block: &mut Block, index: u64) -> Result<Command, LookFault>
        requires from_one { 1 ≤ index }
        requires there { index ≤ self.old.count }
        requires part { IfSome (D.at self.old.disk).seen (IsPartOf block.old) }

        // The block is one of the disk's also afterwards.
        ensures part { IfSome (D.at self.new.disk).seen (IsPartOf block.new) }

        ensures same { self.new ≡ record self.old { disk = self.new.disk } }
        ensures command { IfOk result (λ command. (body : List ℕ) × IsBodyOf body command) }
        ensures damaged { IfErr result (IsBodyFault self.old.generation index
            (body_at self.old.start index)) }

        // Where the disk tells its content.
        ensures accepted { (held : List ℕ) (w : Written) → (D.at self.old.disk).seen ≡ Some held
            → IsJournalOf self.old.generation self.old.start held w → index ≤ length w.commands
            → MatchResult result (IsRecorded w index) (λ why. why ≡ LookFault.DiskFault) }

        ensures looked { Looked D.at self.old.disk self.new.disk }
        ensures cause { CountsLook result (D.at self.old.disk).faults (D.at self.new.disk).faults }
    {
        let gate = self.start + RECORD_BYTES * (index - 1);
        read_command(&mut self.disk, block, self.generation, index, gate)
    }

    /// The generation, from 1.
    pub fn generation(&self) -> u64
        ensures { result ≡ self.now.generation }
    {
        self.generation
    }

    /// The limit under which its commands are, which its version tells: 10^18 or 10^19.
    pub fn limit(&self) -> u64
        ensures known { result ≡ self.now.limit }
        ensures one_of_two { IsLimit result }
    {
        self.limit
    }

    /// How many records there are.
    pub fn records(&self) -> u64
        ensures { result ≡ self.now.count }
    {
        self.count
    }

    /// The disk, as it is.
    pub fn disk(&self) -> &D
        ensures { result.now ≡ self.now.disk }
    {
        &self.disk
    }

    /// How many faults its disk has met. It is no device call.
    pub fn faults(&self) -> u64
        ensures { result ≡ (D.at self.now.disk).faults }
    {
        self.disk.faults()
    }

    /// Its disk, which it lets go as it is.
    pub fn close(self) -> D
        ensures { result ≡ self.disk }
    {
        let Journal {
            disk,
            generation: _,
            limit: _,
            start: _,
            count: _,
        } = self;
        disk
    }
}
