//! What a row of a table is, and when it counts as none.

ghost use Rattle.std.specs.Prelude.{◌≡◌, Bool, false, refl};
ghost use Rattle.liq_types.specs.State.{no_wallet, is_used_wallet, no_client, is_used_client};
ghost use Rattle.liq_tables.specs.Rows.{is_used_amount, no_trove, is_used_trove, no_deposit, is_used_deposit};

use liq_types::{Client, Deposit, Done, Trove, Wallet};

/// A row of a table. One that is not used stands for no row: it only keeps the room for one.
pub trait Row: Copy {
    /// Whether the row is used.
    ghost used: { Self → Bool };

    /// The row that keeps the room.
    ghost nothing: { Self };

    /// Whether the row is used.
    fn is_used(&self) -> bool
        ensures { result ≡ used self.now };

    /// The row that keeps the room.
    fn nothing() -> Self
        ensures { result ≡ nothing };

    /// What keeps the room is not used.
    ghost is_unused: { used nothing ≡ false };
}

/// A wallet is used where it holds anything.
impl Row for Wallet {
    ghost used = { is_used_wallet };

    ghost nothing = { no_wallet };

    fn is_used(&self) -> bool {
        !(self.coll == 0 && self.lusd == 0)
    }

    fn nothing() -> Wallet {
        Wallet { coll: 0, lusd: 0 }
    }

    ghost is_unused = { refl };
}

/// An amount is used where it is not 0.
impl Row for u64 {
    ghost used = { is_used_amount };

    ghost nothing = { 0 };

    fn is_used(&self) -> bool {
        *self != 0
    }

    fn nothing() -> u64 {
        0
    }

    ghost is_unused = { refl };
}

/// A client is used once a command of it was accepted.
impl Row for Client {
    ghost used = { is_used_client };

    ghost nothing = { no_client };

    fn is_used(&self) -> bool {
        self.last != 0
    }

    fn nothing() -> Client {
        Client {
            last: 0,
            kept: Done {
                kind: 0,
                values: [0; 6],
            },
        }
    }

    ghost is_unused = { refl };
}

/// A trove is used where it has a stake.
impl Row for Trove {
    ghost used = { is_used_trove };

    ghost nothing = { no_trove };

    fn is_used(&self) -> bool {
        self.stake != 0
    }

    fn nothing() -> Trove {
        Trove {
            coll: 0,
            debt: 0,
            stake: 0,
            mark_coll: 0,
            mark_debt: 0,
        }
    }

    ghost is_unused = { refl };
}

/// A deposit is used where it has an amount.
impl Row for Deposit {
    ghost used = { is_used_deposit };

    ghost nothing = { no_deposit };

    fn is_used(&self) -> bool {
        self.amount != 0
    }

    fn nothing() -> Deposit {
        Deposit {
            amount: 0,
            p: 0,
            sum: 0,
            scale: 0,
            epoch: 0,
        }
    }

    ghost is_unused = { refl };
}
