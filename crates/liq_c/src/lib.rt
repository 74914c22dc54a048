//! The engine for C: markets in memory, each in a place of the caller's.
//!
//! ```text
//! all zero: no market -- liq_open, liq_load, liq_fork into it --> a mark, and a market's pointer
//!                    <-- liq_close ------------------------------
//! ```
//!
//! Each call that changes a market takes it out of its place and puts it back, so that Rust owns it
//! meanwhile. Behind each call a place has what the call makes of it, and where that fails what it
//! had. That a place is zero or as it was left is for the caller to keep.
#![tactic(auto)]

ghost use Rattle.std.specs.Prelude.{◌≡◌};

mod batches;
mod inside;
mod lists;
mod loose;
mod markets;
mod marks;
mod saves;
mod slot;
mod statuses;

/// The number of this interface.
#[unsafe(no_mangle)]
pub extern "C" fn liq_abi() -> u32
    ensures { result ≡ 1 }
{
    1
}
