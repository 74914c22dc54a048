//! A law of replies in 96 bytes, the contract of a function without a body.

ghost use Rattle.std.specs.Prelude.{◌≡◌};
ghost use Rattle.liq_types.specs.declared.replies.Reply.{Reply};
ghost use Rattle.liq_replies96.specs.Replies.{reply96, shown};

/// The 96 bytes tell replies apart, by all that they show: two replies with the same bytes are the
/// same but for values of an accepted command that no reply to it shows.
pub fn one_reply()
    ensures { (a b : Reply) → reply96 a ≡ reply96 b → shown a ≡ shown b }
{}
