//! A finder before any publication, after one, and after the publisher's end.

use crate::tests::checks::shows;
use liq_types::{Hint, ListChange};
use liq_views::{Finder, Publisher};
use std::alloc::Global;
use std::sync::Wait;

/// A version's number, and then a hint.
#[derive(Clone, Copy, PartialEq, Eq)]
struct Looks {
    version: u64,
    hint: Option<Hint>,
}

/// What was seen in a row.
#[derive(Clone, Copy)]
struct Seen {
    before: Looks,
    published: bool,
    after: Looks,
    beyond: Looks,
}

/// The number first, so that it comes by a look of its own.
fn look_twice(finder: &mut Finder) -> Looks {
    let version = finder.version();
    Looks {
        version,
        hint: finder.hint(20, 9),
    }
}

fn make_row<R: Wait>(rt: &R, alloc: Global) -> Option<Seen> {
    let (mut publisher, mut finders) = Publisher::new(alloc, 1).ok()?;
    let Some(mut finder) = finders.pop() else {
        publisher.close(rt);
        return None;
    };
    let before = look_twice(&mut finder);
    let changes = [
        ListChange::Put {
            key: 10,
            account: 1,
        },
        ListChange::Put {
            key: 30,
            account: 3,
        },
    ];
    let published = publisher.publish(rt, &changes, 2).is_ok();
    let after = look_twice(&mut finder);
    publisher.close(rt);
    Some(Seen {
        before,
        published,
        after,
        beyond: look_twice(&mut finder),
    })
}

#[test]
fn a_publication_is_seen(rt: HostRuntime) {
    let between = Hint {
        prev: Some(1),
        next: Some(3),
        version: 2,
    };
    match make_row(&rt, rt.alloc()) {
        Some(seen) => {
            shows(
                &rt,
                "version 0 is empty",
                seen.before
                    == Looks {
                        version: 0,
                        hint: Some(Hint::NONE),
                    },
            );
            shows(&rt, "published", seen.published);
            shows(
                &rt,
                "version 2 is seen",
                seen.after
                    == Looks {
                        version: 2,
                        hint: Some(between),
                    },
            );
            shows(
                &rt,
                "shut, with the last version",
                seen.beyond
                    == Looks {
                        version: 2,
                        hint: None,
                    },
            );
        }
        None => shows(&rt, "memory", false),
    }
}
