//! What a version is asked.

/// What is asked of a version of the ordered list.
#[derive(Clone, Copy)]
pub enum Ask {
    /// Where an account stands or would stand under this key.
    At {
        key: i128,
        id: u32,
    },
    /// Where an account would stand that opened a trove with this collateral (gwei) and this
    /// borrowing (micro-LUSD), at the least fee.
    Open {
        account: u32,
        coll: u64,
        borrow: u64,
    },
    /// Where an account stands. One that doesn't is answered as at key 0.
    Own {
        account: u32,
    },
}
