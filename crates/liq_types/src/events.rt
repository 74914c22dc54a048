//! What a step does to the Stability Pool and to the ordered list, as others follow it.

/// A change of the Stability Pool. LUSD is in micro-LUSD, collateral in gwei.
#[derive(Clone, Copy)]
pub enum PoolEvent {
    /// A depositor's own operation: LUSD put in, LUSD and collateral paid out, and the amount
    /// recorded after it.
    Own {
        account: u32,
        put: u64,
        paid: u64,
        gain: u64,
        amount: u64,
    },
    /// Debt that the pool took over for collateral, the pool's total before it, and by how many
    /// steps the scale rose. Where the debt is the total the epoch ends, and the rise is 0.
    Offset {
        debt: u64,
        coll: u64,
        total: u64,
        rise: u64,
    },
}

/// A change of the ordered list.
#[derive(Clone, Copy)]
pub enum ListChange {
    /// The account's trove stands at this key from now on.
    Put {
        key: i128,
        account: u32,
    },
    /// The account has no trove any more.
    Gone {
        account: u32,
    },
    /// The words from which a key is made, as they are now.
    Words {
        snap_stakes: u64,
        snap_coll: u64,
        sum_debt: u128,
    },
}
