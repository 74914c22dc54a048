//! What accounts have outside troves and deposits: wallets, what owners of closed troves may claim,
//! and what each pool holds.
//!
//! A payment into a wallet is refused, and changes nothing, where the wallet would have more than
//! may be inside, and one out of it where it has too little. Writing takes no memory: room for an
//! account is reserved before.
#![tactic(auto)]

mod pools;
mod surplus;
mod wallets;

pub use pools::Pools;
pub use surplus::Surplus;
pub use wallets::Wallets;
