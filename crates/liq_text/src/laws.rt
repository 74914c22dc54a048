//! What holds of lines and texts, whatever reads or writes them.

ghost use Rattle.std.specs.Prelude.{◌≡◌, ◌≤◌, ℕ, List, length};
ghost use Rattle.liq_types.specs.declared.replies.Reply.{Reply};
ghost use Rattle.liq_types.specs.declared.requests.Request.{Request};
ghost use Rattle.liq_text.specs.Replies.{text, FitsTypes};
ghost use Rattle.liq_text.specs.Spelling.{Spells, SpellsInSession};

use liq_types::amounts::{LINE_BYTES, REPLY_BYTES};

/// A line spells at most one request.
pub fn one_request()
    ensures { (line : List ℕ) (a b : Request) → Spells line a → Spells line b → a ≡ b }
{}

/// A line of several sessions spells at most one session and request.
pub fn one_session_request()
    ensures { (line : List ℕ) (m n : ℕ) (a b : Request) → SpellsInSession line m a
        → SpellsInSession line n b → (m ≡ n) × (a ≡ b) }
{}

/// A line that spells a request has at most 200 bytes, so whoever reads lines may give up on a
/// longer one.
pub fn short_lines()
    ensures line { (line : List ℕ) (request : Request) → Spells line request
        → length line ≤ LINE_BYTES }
    ensures in_session { (line : List ℕ) (session : ℕ) (request : Request)
        → SpellsInSession line session request → length line ≤ LINE_BYTES }
{}

/// No text of a reply has more than 255 bytes.
pub fn short_texts()
    ensures { (reply : Reply) → FitsTypes reply → length (text reply) ≤ REPLY_BYTES }
{}
