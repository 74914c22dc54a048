//! What is published: a version, and how many batches made it. A batch is absorbed whole, or not at
//! all.

ghost use Rattle.std.specs.Prelude.{◌≡◌};
ghost use Rattle.liq_views.specs.Shelves.{opening, after};

use crate::batch::Batch;
use left_right::Absorb;
use liq_list_version::Version;
use std::alloc::{AllocError, Global};

/// A version and the number of batches that made it. The number tells one list of batches from a
/// longer one.
#[derive(Drop)]
pub struct Shelf {
    pub(crate) version: Version,
    pub(crate) count: u64,
}

impl Shelf {
    /// No batch yet.
    pub(crate) fn new(alloc: Global) -> Shelf
        ensures { result ≡ opening }
    {
        Shelf {
            version: Version::new(alloc),
            count: 0,
        }
    }
}

impl Absorb<Batch> for Shelf {
    type State = Shelf;

    ghost state = { λ s. s };

    ghost applied = { after };

    fn absorb_first(&mut self, operation: &Batch, _other: &Shelf) -> Result<(), AllocError> {
        if self.count == u64::MAX {
            return Err(AllocError);
        }
        match self.version.fold(operation.changes(), operation.number()) {
            Ok(()) => {
                self.count += 1;
                Ok(())
            }
            Err(_) => Err(AllocError),
        }
    }
}
