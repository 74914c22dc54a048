//! The nodes and the rows of entries that come all at once.

ghost use Rattle.std.specs.Prelude.{◌≡◌, ◌<◌, ◌≤◌, ◌^◌, IfOk, length, vec_capacity};
ghost use Rattle.liq_order.specs.Chained.{before, below, chained, rows_from};

use crate::places::{Node, NodeNo};
use liq_types::NoMemory;
use std::alloc::Global;

/// The nodes of entries, each at the place of its number.
pub(crate) fn nodes_of(alloc: Global, entries: &[(i128, u32)]) -> Result<Vec<Node>, NoMemory>
    requires { length entries.now < 2 ^ 32 }
    ensures nodes { IfOk result (λ nodes. nodes.items
        ≡ chained (length entries.now) 0 entries.now) }
    ensures room { IfOk result (λ nodes. length entries.now ≤ vec_capacity nodes) }
{
    let Ok(mut nodes) = Vec::with_capacity(alloc, entries.len()) else {
        return Err(NoMemory);
    };
    for at in 0..entries.len() {
        let next = place_below(entries.len(), at + 1);
        nodes.push_reserved(Node::of(entries[at], place_before(at), next));
    }
    Ok(nodes)
}

/// The places of the entries' accounts.
pub(crate) fn rows_of(
    alloc: Global,
    entries: &[(i128, u32)],
) -> Result<Vec<(u32, NodeNo)>, NoMemory>
    requires { length entries.now < 2 ^ 32 }
    ensures { IfOk result (λ rows. rows.items ≡ rows_from 0 entries.now) }
{
    let Ok(mut rows) = Vec::with_capacity(alloc, entries.len()) else {
        return Err(NoMemory);
    };
    for at in 0..entries.len() {
        rows.push_reserved((entries[at].1, NodeNo(at as u32)));
    }
    Ok(rows)
}

/// The place before a number: that of the last, where there are so many.
pub(crate) fn place_before(at: usize) -> Option<NodeNo>
    requires { at < 2 ^ 32 }
    ensures { result ≡ before at }
{
    if at == 0 {
        None
    } else {
        Some(NodeNo(at as u32 - 1))
    }
}

/// The place of a number, where there are more places than that.
pub(crate) fn place_below(len: usize, at: usize) -> Option<NodeNo>
    requires { len < 2 ^ 32 }
    ensures { result ≡ below len at }
{
    if at < len {
        Some(NodeNo(at as u32))
    } else {
        None
    }
}
