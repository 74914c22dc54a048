//! What one publication adds: changes, copied from the publisher's caller.

ghost use Rattle.std.specs.Prelude.{◌≡◌, IfOk};

use liq_types::{ListChange, NoMemory};
use std::alloc::Global;
use std::marker::Model;

/// Changes of the ordered list, and the number of the version that they make.
#[derive(Drop)]
pub struct Batch {
    changes: Vec<ListChange>,
    number: u64,
}

impl Model for Batch {
    ghost use Rattle.liq_views.specs.Batches.{Given};

    ghost Value = { Given };

    ghost view = { λ b. record { changes = b.changes.items; number = b.number } };
}

impl Batch {
    /// Copies the changes.
    pub(crate) fn new(alloc: Global, changes: &[ListChange], number: u64) -> Result<Batch, NoMemory>
        ensures { IfOk result (λ b. b ≡ record { changes = changes.now; number = number }) }
    {
        let mut copied = Vec::with_capacity(alloc, changes.len())?;
        copied.extend_from_slice(changes)?;
        Ok(Batch {
            changes: copied,
            number,
        })
    }

    pub(crate) fn changes(&self) -> &[ListChange]
        ensures { result.now ≡ self.now.changes }
    {
        &self.changes
    }

    pub(crate) fn number(&self) -> u64
        ensures { result ≡ self.now.number }
    {
        self.number
    }
}
