//! Tables whose rows are reserved before they are written, so that the writing takes no memory.
//!
//! A key is in one of three states. What a table's callers see has the used rows alone, so that
//! reserving changes nothing of it:
//!
//! ```text
//! no room  -- reserve, which may fail -->  room, no row  -- write -->  a used row
//!                                               ^                          |
//!                                               +-- take, or write unused -+
//! ```
//!
//! A key that once has room keeps it as long as the table lives.
//!
//! A table is two parts. `rows` has the rows in the order in which their keys came; `places` has
//! for each key the number of its row, in pages of 1,024 keys, which are made as they are needed.
//! Each number leads to a row, and no two keys have the same.
#![tactic(auto)]

mod index;
mod places;
mod reserved;
mod row;

pub use reserved::Reserved;
pub use row::Row;
