//! The rule of the lock's table, and what each kind of step tells.
ghost use Rattle.liq_lock.specs.Rule.{Ruled};
ghost use Rattle.liq_lock.specs.Views.{opener, keeping, dealt, joined, spent};
ghost use Rattle.liq_lock.specs.Steps.{Draws, Looks, Counts, Leaves, Settles};

use crate::chronicle::Chronicle;
use crate::view::View;
use atomic_table::{Join, Play, Split, TableRule};

/// The rule of a lock, whose key is the number of seats that it was made with.
pub(crate) struct Turns;

impl<T: Chronicle> TableRule<Option<T>, View<T::Item>, u32> for Turns {
    ghost holds = { Ruled T.history T.maker };

    ghost first = { opener };
}

/// A ticket is drawn: 1 is added to the next ticket.
pub(crate) struct Draw;

impl<T: Chronicle> Play<Option<T>, View<T::Item>> for Draw {
    ghost then = { Draws };
}

/// A look at the ticket whose turn it is.
pub(crate) struct Look;

impl<T: Chronicle> Play<Option<T>, View<T::Item>> for Look {
    ghost then = { Looks T.history T.maker };
}

/// New items are counted.
pub(crate) struct Count;

impl<T: Chronicle> Play<Option<T>, View<T::Item>> for Count {
    ghost then = { Counts T.history };
}

/// The turn ends: 1 is added to the ticket whose turn it is.
pub(crate) struct Leave;

impl<T: Chronicle> Play<Option<T>, View<T::Item>> for Leave {
    ghost then = { Leaves };
}

/// A look behind a join, which tells of the seat that it made.
pub(crate) struct Settle;

impl<T: Chronicle> Play<Option<T>, View<T::Item>> for Settle {
    ghost then = { Settles T.maker };
}

/// A seat is made out of another.
pub(crate) struct Deal;

impl<I> Split<View<I>> for Deal {
    ghost left = { keeping };

    ghost right = { dealt };
}

/// A seat is joined into another.
pub(crate) struct Merge;

impl<I> Join<View<I>> for Merge {
    ghost both = { joined };

    ghost spent = { spent };
}
