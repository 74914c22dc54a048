//! A call that is answered by the store and entered in the book.
ghost use Rattle.std.specs.Prelude.{◌<◌, ◌+◌, ◌^◌, vec_capacity, vec_len};
ghost use Rattle.liq_book.specs.Entering.{IsCalled, IsEntered};

use liq_outside::Disk;
use liq_store::Store;
use liq_types::{Answer, Entry, Hint, Request};

/// Answers a session's request as `Store::call` does, and enters a reply behind all entries, as the
/// session's next one: so many of its calls got one before. With any other answer the entries stay.
/// There is room for the entry.
pub(crate) fn enter<D: Disk>(
    store: &mut Store<D>,
    entries: &mut Vec<Entry>,
    session: u8,
    calls: u32,
    request: &Request,
    hint: &Hint,
) -> Answer
    requires room { vec_len entries.old < vec_capacity entries.old }
    requires calls { calls + 1 < 2 ^ 32 }
    ensures entered { IsEntered session calls request.now result entries.old.items
        entries.new.items }
    ensures store { IsCalled D.at store.old request.now result store.new }
{
    match store.call(request, hint) {
        Answer::Reply(reply) => {
            entries.push_reserved(Entry {
                session,
                index: calls + 1,
                request: *request,
                reply,
            });
            Answer::Reply(reply)
        }
        other => other,
    }
}
