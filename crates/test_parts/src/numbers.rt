//! Numbers, the base rate, wallets and surplus, and borrowing.

mod adjusting;
mod closing;
mod numbers;
mod opening;
mod plan;
mod rates;
mod wallets;
