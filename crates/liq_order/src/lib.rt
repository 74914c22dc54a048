//! The troves in the order of their ratios: a list of linked nodes, ascending by key and then by
//! account. The last one counts as that of the lowest ratio.
//!
//! ```text
//! front                                                            end
//!  | key 3, account 7 | <--> | key 5, account 1 | <--> | key 5, account 4 |
//!  highest ratio                                              lowest ratio
//! ```
//!
//! The nodes lie in one piece of memory, `cells`; a node that left is free for the next that comes.
//! `accounts` has the place of each account's node. A hint names an account beside the new place:
//! with a tight one an insertion takes at most four steps, with any other as many more as there are
//! entries. There is no search by key here: `liq_list_index` has one.
#![tactic(auto)]

mod accounts;
mod at_once;
mod cells;
pub mod examples;
pub mod laws;
mod linked;
mod list;
mod places;

pub use linked::Nodes;
pub use list::Order;
pub use places::{Node, NodeNo};
