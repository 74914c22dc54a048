//! The changes of the ordered list that nobody has followed yet: noted behind each command, and let
//! go once they were followed.
ghost use Rattle.std.specs.Prelude.{◌≡◌, ◌≤◌, ◌+◌, ◌++◌, [], length, vec_capacity, vec_len};

use liq_types::ListChange;
use std::alloc::Global;

// Room for so many changes is kept from call to call. Few calls make more, and an opening tells the
// whole list.
const ROOM_KEPT: usize = 64;

// Notes what a command changes, for which there is room.
pub fn note(changes: &mut Vec<ListChange>, more: &[ListChange])
    requires { vec_len changes.old + length more.now ≤ vec_capacity changes.old }
    ensures { changes.new.items ≡ changes.old.items ++ more.now }
{
    let Ok(()) = changes.extend_from_slice(more) else {
        unreachable!()
    };
}

// Lets the changes go. Room for more than a few is given back.
pub fn clear(alloc: Global, changes: &mut Vec<ListChange>)
    ensures { changes.new.items ≡ [] }
{
    if changes.capacity() <= ROOM_KEPT {
        changes.clear();
    } else {
        *changes = Vec::new(alloc);
    }
}
