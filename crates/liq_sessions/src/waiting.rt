//! Requests that wait, apart from their commands.

use liq_types::Query;

/// A request that waits: a query, or the next of the commands, which are kept apart. So a query
/// that waits takes 12 bytes, where a request takes 88.
#[derive(Clone, Copy)]
pub(crate) enum Waiting {
    Ask(Query),
    NextCommand,
}
