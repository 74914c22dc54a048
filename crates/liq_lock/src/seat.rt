//! A seat of a lock, at rest. Two seats may be joined into one, which then stands for the shares of
//! both; the lock is closed by a seat that has all shares.
ghost use Rattle.std.specs.Prelude.{◌≡◌, true, length};
ghost use Rattle.liq_lock.specs.Views.{view_in, is_at_rest};

use crate::view::View;
use atomic_table::Badge;

/// A seat of a lock, which is not inside. It stands for one share of the lock or more.
#[derive(Drop)]
pub struct LockSeat<I> {
    pub(crate) badge: Badge<View<I>>,
    pub(crate) shares: u32,
    pub(crate) entries: u64,
    pub ghost one: { length badge.views ≡ 1 },
    pub ghost at_rest: { is_at_rest (view_in badge.views) ≡ true },
    pub ghost shares_are: { (view_in badge.views).shares ≡ shares },
    pub ghost entries_are: { length (view_in badge.views).seen ≡ entries },
}

impl<I> LockSeat<I> {
    ghost use Rattle.liq_lock.specs.Seats.{seen_of};

    /// How many items of the history the seat has seen.
    pub fn seen(&self) -> u64
        ensures { result ≡ length (seen_of self.now) }
    {
        self.entries
    }
}
