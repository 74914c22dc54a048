//! What a session works with, and what it comes to.

use crate::script::Script;
use liq_types::{Answer, Desk, Reply, Seq};

/// What a session works with: its script, its seat at a desk, and who finds its hints.
#[derive(Drop)]
pub struct Work<K: Desk, H: Drop>
where
    K::Seat: Drop,
{
    pub script: Script,
    pub seat: K::Seat,
    pub hinter: H,
}

/// Replies in the order of their requests.
pub type Replies = Seq<Reply>;

/// How a session ended.
#[derive(Clone, Copy)]
pub enum SessionEnd {
    /// Each request of its script got a reply.
    All,
    /// The next request got this answer, which is no reply. No later one was asked.
    Fault(Answer),
}

/// What a session came to: the replies to the first requests of its script, and its seat and its
/// hinter back.
#[derive(Drop)]
pub struct SessionDone<K: Desk, H: Drop>
where
    K::Seat: Drop,
{
    pub session: u8,
    pub seat: K::Seat,
    pub hinter: H,
    pub replies: Replies,
    pub end: SessionEnd,
}
