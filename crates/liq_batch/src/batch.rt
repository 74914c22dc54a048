//! What goes into a batch, and how it ends.

ghost use Rattle.std.specs.Prelude.{◌≡◌, ◌<◌, length, set, None, Some, MatchResult, Ok, Err};
ghost use Rattle.liq_types.specs.declared.requests.Request.TheVariants.{Do};
ghost use Rattle.liq_batch.specs.declared.batch.Fault.TheVariants.{Bad, NoMemory as no_memory};
ghost use Rattle.liq_batch.specs.Batch.{command_in, said};

use liq_replies96::{Reply96, bad, no_memory};
use liq_types::{Command, NoMemory};
use liq_wire::{BadPlace, decode};

/// A command in 96 bytes, as a journal keeps it.
#[repr(C)]
#[derive(Clone, Copy)]
pub struct Command96 {
    pub bytes: [u8; 96],
}

/// A query in 64 bits.
#[repr(C)]
#[derive(Clone, Copy)]
pub struct Query64 {
    /// What is asked: 1 a wallet, 2 a trove, 3 a deposit, 4 the pools, 5 the system, 6 a client's
    /// next number.
    pub topic: u32,
    /// Of which account or client; 0 where none is asked about.
    pub account: u32,
}

/// Why an item of a batch has no answer. Then nothing changed.
#[derive(Clone, Copy)]
pub enum Fault {
    /// It is no command or query: the field that begins at this byte fits none.
    Bad(u8),
    /// There was no memory.
    NoMemory,
}

impl Command96 {
    /// The command that the bytes are, or where the first field begins that fits none.
    pub(crate) fn read(&self) -> Result<Command, BadPlace>
        ensures { MatchResult result
            (λ c. command_in self.now ≡ Ok (Do c)) (λ bad. command_in self.now ≡ Err bad.place) }
    {
        // odd: match for ?
        match decode(&self.bytes) {
            Ok(command) => Ok(command),
            Err(bad) => Err(bad),
        }
    }
}

impl From<BadPlace> for Fault {
    ghost from_gives = { λ bad fault. fault ≡ Bad bad.place };

    fn from(bad: BadPlace) -> Fault {
        Fault::Bad(bad.place)
    }
}

impl From<NoMemory> for Fault {
    ghost from_gives = { λ _ fault. fault ≡ no_memory };

    fn from(_: NoMemory) -> Fault {
        Fault::NoMemory
    }
}

impl Fault {
    /// The reply that says why there is no answer.
    fn reply(self) -> Reply96
        ensures { result ≡ said self }
    {
        match self {
            Fault::Bad(place) => bad(place),
            Fault::NoMemory => no_memory(),
        }
    }
}

/// How a batch ended.
#[derive(Clone, Copy)]
pub struct Batch {
    /// How many items were answered, from the first on.
    pub done: usize,
    /// Why the next one was not. None: all were answered for which there was a place.
    pub fault: Option<Fault>,
}

impl Batch {
    /// So many items were answered, and none is left.
    pub(crate) fn over(done: usize) -> Batch
        ensures { result ≡ record { done = done; fault = None } }
    {
        let fault = None;
        Batch { done, fault }
    }

    /// So many were answered, and the next one has a fault: the reply in its place says which.
    pub(crate) fn stopped(done: usize, fault: Fault, replies: &mut [Reply96]) -> Batch
        requires { done < length replies.old }
        ensures batch { result ≡ record { done = done; fault = Some fault } }
        ensures reply { replies.new ≡ set replies.old done (said fault) }
    {
        replies[done] = fault.reply();
        let fault = Some(fault);
        Batch { done, fault }
    }
}
