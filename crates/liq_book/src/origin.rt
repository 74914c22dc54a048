//! Where a book begins.

ghost use Rattle.liq_types.specs.State.{State, opening};
ghost use Rattle.liq_outside.specs.At.{DiskAt};
ghost use Rattle.liq_book.specs.Origin.{nowhere};

use std::marker::Brand;

/// Where a book begins: a state, and both disks at that moment. Contracts alone see it. Whoever
/// makes a service picks it, by the store that it then has.
pub trait Origin {
    /// The state for which the store's protocol stood.
    ghost state: { State };

    /// The left disk.
    ghost left: { DiskAt };

    /// The right disk.
    ghost right: { DiskAt };
}

impl Origin for Brand {
    ghost state = { opening };

    ghost left = { nowhere };

    ghost right = { nowhere };
}
