//! Which commands change the ordered list.

ghost use Rattle.std.specs.Prelude.{◌↔◌, IsTrue};
ghost use Rattle.liq_book.specs.Publishing.{ChangesList};

use liq_types::{Answer, Reply};

/// The kinds of accepted commands that change the ordered list.
const LIST_KINDS: [u8; 7] = [6, 7, 8, 11, 12, 13, 14];

/// Whether this is the reply of an accepted command that may have changed the ordered list.
pub(crate) fn changes_list(answer: &Answer) -> bool
    ensures { IsTrue result ↔ ChangesList answer.now }
{
    match answer {
        Answer::Reply(Reply::Said(done)) => LIST_KINDS.contains(&done.kind),
        _ => false,
    }
}
