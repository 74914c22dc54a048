//! Liquidations and redemptions.

mod counted;
mod liquidated;
mod lowest;
mod pairs;
mod read;
mod redeemed;
mod redeeming;
mod treatments;
mod world;
