//! Two disks: the state for which a pair of them stands, and the states for which it is kept.
//! Definitions and their laws, and the codes by which a replay's damage is told; no disk is touched
//! here.
//!
//! The left disk has the odd generations, the right one the even ones. Of two open ones that of the
//! greater generation counts; a pair without an open one stands for the opening. A pair that is
//! kept for a state is settled, or a stop has left one command unfinished:
//!
//! ```text
//!               append: a whole record behind a gate that isn't open
//!              /                                                     \
//! settled for s                                                       settled for the state after
//!              \                                                     /
//!               rotation: the next generation, on the other disk, behind a gate that isn't open
//! ```
//!
//! Settled is: the disk that counts ends with a shut gate, and the other one is closed or of an
//! older generation. An opening of a kept pair makes it settled, for the state before the
//! unfinished command; a stop in that opening may leave it for the state behind it. Whatever a stop
//! leaves in an append, a rotation or an opening is kept again.
#![tactic(auto)]

pub mod examples;
pub mod laws;
mod side;

pub use side::Side;
