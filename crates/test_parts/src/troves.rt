//! The troves, their order and what stands beneath its guide, the Stability Pool and its audit.

mod audits;
mod chunks;
mod guides;
mod orders;
mod pools;
mod stands;
mod troves;
