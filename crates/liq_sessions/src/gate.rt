//! Who watches the calls of sessions.

use liq_types::Hint;

/// What stands before and behind each call of a session. Calls are counted for each session, from
/// 1. No clause knows what a gate does: it changes no reply.
pub trait Gate {
    /// The session comes to its next call.
    fn enter(&self, session: u8, index: u32);

    /// The session's call has answered. It was made with this hint.
    fn leave(&self, session: u8, index: u32, hint: &Hint);
}

/// A gate that lets every call through at once.
#[derive(Clone, Copy)]
pub struct OpenGate;

impl Gate for OpenGate {
    fn enter(&self, _session: u8, _index: u32) {}

    fn leave(&self, _session: u8, _index: u32, _hint: &Hint) {}
}
