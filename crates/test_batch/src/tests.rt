//! The tests, and what they share.

mod batches;
mod replies;

use liq_replies96::Reply96;
use std::process::Abort;

/// Stops the test where this does not hold.
fn shows(rt: &impl Abort, what: &str, holds: bool) {
    assert!(rt; holds, "{what}");
}

/// Whether a reply is of this kind, which one, with so many numbers, and with these words in front.
fn is(reply: &Reply96, head: [u8; 3], first: u64, second: u64) -> bool {
    [reply.kind, reply.which, reply.count] == head
        && reply.zero == [0; 5]
        && reply.values[..2] == [first, second]
        && reply.values[10] == 0
}
