//! The two files, each taken and held for this process alone.
ghost use Rattle.std.specs.Prelude.{◌↔◌, ◌≡◌, Err, None, false, IfErr, IfSome, IsSome, IsTrue, OnErr};
ghost use Rattle.liq_disk_files.specs.Asked.{Earlier};
ghost use Rattle.liq_disk_files.specs.Held.{IsHeld};
ghost use Rattle.liq_disk_files.specs.Opened.{AreSynced, AreTaken, IsOpened, IsTaken, OpensInTurn, OpensWell, SawNone};
ghost use Rattle.liq_disk_files.specs.Unopened.{HasNone, IsRefused, IsUnopened, IsUnsynced, IsUntaken};
ghost use Rattle.liq_disk_files.specs.declared.calls.Refusal.TheVariants.{Missing};

use crate::calls::{Name, Opening, Refusal, Stream};
use crate::found::{FileId, Found, may_be_taken};
use crate::handle::Handle;
use crate::names::led_to;
use crate::system::System;
use liq_outside::FileDisk;
use std::alloc::Global;
use std::fs::TryLockError;
use std::io::ErrorKind;

/// What is there is opened as it is.
const AS_IT_IS: Opening = Opening {
    read: true,
    write: true,
    truncate: false,
    create_new: false,
    mode: 0,
};

/// A new file, which its owner alone may read and write. No link is followed.
const NEW: Opening = Opening {
    read: true,
    write: true,
    truncate: false,
    create_new: true,
    mode: 0o600,
};

/// The disks over both files, or two without one: once the left file is refused the right one is
/// not tried. No file stands for two of the standard streams, the left file and the right one.
/// Nothing is written, and no folder synced, before both are taken. There are none only where the
/// system's last answer says why.
pub fn disks<S: System>(system: &mut S, alloc: Global) -> (FileDisk, FileDisk)
    ensures both { IsSome result.0.device ↔ IsSome result.1.device }
    ensures untouched { (result.0.moment ≡ 0) × (result.1.moment ≡ 0) }
    ensures uncounted { (result.0.faults ≡ 0) × (result.1.faults ≡ 0) }
    ensures opens { S.tells → OpensWell (S.asked system.old) → OpensWell (S.asked system.new) }
    ensures taken { S.tells → AreTaken result.0.device result.1.device (S.asked system.new) }
    ensures none { S.tells → result.0.device ≡ None → HasNone (S.asked system.new) }
{
    match both(system, alloc) {
        Some(disks) => disks,
        None => no_disks(),
    }
}

/// Two disks without a file, on which every call fails.
pub fn no_disks() -> (FileDisk, FileDisk)
    ensures left { result.0.device ≡ None }
    ensures right { result.1.device ≡ None }
    ensures untouched { (result.0.moment ≡ 0) × (result.1.moment ≡ 0) }
    ensures uncounted { (result.0.faults ≡ 0) × (result.1.faults ≡ 0) }
{
    (FileDisk::new(None), FileDisk::new(None))
}

fn both<S: System>(system: &mut S, alloc: Global) -> Option<(FileDisk, FileDisk)>
    ensures left { IfSome result (λ disks. IsSome disks.0.device) }
    ensures right { IfSome result (λ disks. IsSome disks.1.device) }
    ensures untouched { IfSome result (λ disks. (disks.0.moment ≡ 0) × (disks.1.moment ≡ 0)) }
    ensures uncounted { IfSome result (λ disks. (disks.0.faults ≡ 0) × (disks.1.faults ≡ 0)) }
    ensures opens { S.tells → OpensWell (S.asked system.old) → OpensWell (S.asked system.new) }
    ensures taken { S.tells → IfSome result (λ disks.
        AreTaken disks.0.device disks.1.device (S.asked system.new)) }
    ensures none { S.tells → result ≡ None → HasNone (S.asked system.new) }
{
    let user = system.user()?;
    let input = system.behind(Stream::Input)?;
    let output = system.behind(Stream::Output)?;
    let errors = system.behind(Stream::Errors)?;
    let (left, found) = taken(system, alloc, Name::Left, user, &[input, output, errors])?;
    let (right, _) = taken(
        system,
        alloc,
        Name::Right,
        user,
        &[input, output, errors, found.id],
    )?;
    if !synced(system) {
        return None;
    }
    Some((left, right))
}

/// Syncs the folders in which the two files really are: one sync, where neither name is a link and
/// both so stand in the folder in which the program runs. Says whether it was done.
fn synced<S: System>(system: &mut S) -> bool
    ensures opens { S.tells → OpensWell (S.asked system.old) → OpensWell (S.asked system.new) }
    ensures synced { S.tells → IsTrue result → AreSynced (S.asked system.old)
        (S.asked system.new) }
    ensures unsynced { S.tells → result ≡ false → IsUnsynced (S.asked system.new) }
{
    let Some(left) = system.see(Name::Left.text()) else {
        return false;
    };
    let Some(right) = system.see(Name::Right.text()) else {
        return false;
    };
    if !system.sync_folder(Name::Left) {
        return false;
    }
    if left.is_link || right.is_link {
        return system.sync_folder(Name::Right);
    }
    true
}

/// The disk over the file of this name, and which file it is. There is none where the file cannot
/// be opened or may not be taken, stands in the place of a standard stream, or is held by another
/// process. What the name leads to is looked at once the file is open, so the file that is judged
/// is the one that is used.
fn taken<S: System>(
    system: &mut S,
    alloc: Global,
    name: Name,
    user: u32,
    others: &[FileId],
) -> Option<(FileDisk, Found)>
    ensures there { IfSome result (λ taken. IsSome taken.0.device) }
    ensures untouched { IfSome result (λ taken. taken.0.moment ≡ 0) }
    ensures uncounted { IfSome result (λ taken. taken.0.faults ≡ 0) }
    ensures since { S.tells → Earlier (S.asked system.old) (S.asked system.new) }
    ensures opens { S.tells → OpensInTurn name (S.asked system.old) (S.asked system.new) }
    ensures taken { S.tells → IfSome result (λ taken.
        IsTaken user others.now name taken.0.device taken.1 (S.asked system.new)) }
    ensures none { S.tells → result ≡ None
        → IsUntaken user others.now name (S.asked system.new) }
{
    let Ok(file) = opened(system, name) else {
        return None;
    };
    let found = system.told(&file)?;
    let named = led_to(system, alloc, name, user)?;
    if named.id != found.id || !may_be_taken(&found, user, others) {
        return None;
    }
    if !is_held(&system.lock(&file)) {
        return None;
    }
    let disk = file.into_disk();
    if !disk.is_there() {
        return None;
    }
    Some((disk, found))
}

/// The file of this name, to be read and written. Where there is none it is made; where one came
/// meanwhile, that one is opened.
fn opened<S: System>(system: &mut S, name: Name) -> Result<Handle, Refusal>
    ensures since { S.tells → Earlier (S.asked system.old) (S.asked system.new) }
    ensures opens { S.tells → OpensInTurn name (S.asked system.old) (S.asked system.new) }
    ensures opened { S.tells → IsOpened name result (S.asked system.new) }
    ensures unopened { S.tells → OnErr result (IsUnopened name (S.asked system.new)) }
{
    match existing(system, name) {
        Ok(file) => Ok(file),
        Err(refusal) => match refusal {
            Refusal::Missing => made(system, name),
            _ => Err(refusal),
        },
    }
}

/// A new file of this name, where none is; or the one that came meanwhile.
fn made<S: System>(system: &mut S, name: Name) -> Result<Handle, Refusal>
    ensures since { S.tells → Earlier (S.asked system.old) (S.asked system.new) }
    ensures opens { S.tells → SawNone name (S.asked system.old)
        → OpensInTurn name (S.asked system.old) (S.asked system.new) }
    ensures opened { S.tells → IsOpened name result (S.asked system.new) }
    ensures unopened { S.tells → OnErr result (IsUnopened name (S.asked system.new)) }
{
    match system.open(name, NEW) {
        Ok(file) => Ok(file),
        Err(refusal) => match refusal {
            Refusal::Exists => existing(system, name),
            _ => Err(refusal),
        },
    }
}

/// The file that is there. What is no regular file is not opened: a device may do something when it
/// is.
fn existing<S: System>(system: &mut S, name: Name) -> Result<Handle, Refusal>
    ensures since { S.tells → Earlier (S.asked system.old) (S.asked system.new) }
    ensures opens { S.tells → OpensInTurn name (S.asked system.old) (S.asked system.new) }
    ensures opened { S.tells → IsOpened name result (S.asked system.new) }
    ensures none { S.tells → result ≡ Err Missing → SawNone name (S.asked system.new) }
    ensures refused { S.tells → IfErr result (λ refusal.
        IsRefused name refusal (S.asked system.old) (S.asked system.new)) }
{
    if !system.look(name)? {
        return Err(Refusal::Other);
    }
    system.open(name, AS_IT_IS)
}

/// Whether the lock lets the process go on: it is taken, or the file system has no locks. After any
/// other fault nothing is held.
fn is_held(lock: &Result<(), TryLockError>) -> bool
    ensures { IsTrue result ↔ IsHeld lock.now }
{
    match lock {
        Ok(()) => true,
        Err(TryLockError::Error(fault)) => fault.kind() == ErrorKind::Unsupported,
        Err(TryLockError::WouldBlock) => false,
    }
}
