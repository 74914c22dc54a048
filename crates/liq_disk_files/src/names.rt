//! What the names of the two files lead to.
ghost use Rattle.std.specs.Prelude.{IsTrue, ◌↔◌, ◌≡◌, None, true};
ghost use Rattle.std.specs.Path.{path_buf_bytes};
ghost use Rattle.liq_disk_files.specs.Asked.{Earlier};
ghost use Rattle.liq_disk_files.specs.Names.{text_of};
ghost use Rattle.liq_disk_files.specs.Opened.{IsUnchanged, LeadsToIt, OpensWell};
ghost use Rattle.liq_disk_files.specs.Unopened.{IsLost};

use crate::calls::{Name, Seen};
use crate::found::{Found, may_be_followed};
use crate::system::System;
use std::alloc::Global;
use std::path::PathBuf;

/// As many links in a row as the system follows.
const MOST_LINKS: u32 = 40;

/// The file to which a name leads, where the user follows each link on the way. Folders on the way
/// are not looked at. Memory is taken only where the name is a link.
pub fn led_to<S: System>(system: &mut S, alloc: Global, name: Name, user: u32) -> Option<Found>
    ensures since { S.tells → Earlier (S.asked system.old) (S.asked system.new) }
    ensures opens { S.tells → OpensWell (S.asked system.old) → OpensWell (S.asked system.new) }
    ensures leads { S.tells → LeadsToIt user (text_of name) result (S.asked system.new) }
    ensures lost { S.tells → result ≡ None → IsLost (S.asked system.new) }
{
    let seen = system.see(name.text())?;
    if seen.is_link {
        return behind_links(system, PathBuf::from_str(alloc, name.text()).ok()?, user);
    }
    Some(seen.found)
}

fn behind_links<S: System>(system: &mut S, name: PathBuf, user: u32) -> Option<Found>
    ensures since { S.tells → Earlier (S.asked system.old) (S.asked system.new) }
    ensures opens { S.tells → OpensWell (S.asked system.old) → OpensWell (S.asked system.new) }
    ensures leads { S.tells → LeadsToIt user (path_buf_bytes name) result (S.asked system.new) }
    ensures lost { S.tells → IsLost (S.asked system.old) → result ≡ None
        → IsLost (S.asked system.new) }
{
    let mut path = name;
    for _ in 0..=MOST_LINKS {
        let seen = system.see(path.as_str())?;
        if !seen.is_link {
            return Some(seen.found);
        }
        if !may_be_followed(seen.found.owner, user) {
            return None;
        }
        let next = system.read_link(path.as_str())?;
        let again = system.see(path.as_str())?;
        if !is_unchanged(&seen, &again) {
            return None;
        }
        path = next;
    }
    None
}

/// Whether two looks at a link saw the same one: a name that was given to another link meanwhile
/// shows by its number or its time of change.
fn is_unchanged(before: &Seen, after: &Seen) -> bool
    ensures { IsTrue result ↔ IsUnchanged before.now after.now }
{
    before.found.id == after.found.id && before.changed == after.changed
}
