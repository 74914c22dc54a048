//! What is entered in a history.

use crate::replies::Reply;
use crate::requests::Request;

/// A session's call that got a reply.
#[derive(Clone, Copy)]
pub struct Entry {
    pub session: u8,
    /// The session's calls with a reply are counted, from 1.
    pub index: u32,
    pub request: Request,
    pub reply: Reply,
}
