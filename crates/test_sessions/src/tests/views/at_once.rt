//! Finders that look from threads while versions are published.
ghost use Rattle.std.specs.Prelude.{◌≡◌, ◌≤◌, ◌++◌, []};
ghost use Rattle.liq_views.specs.Batches.{last_from};
ghost use Rattle.liq_views.specs.Publishers.{published, waiting};

use crate::tests::checks::shows;
use liq_types::{Hint, ListChange};
use liq_views::{Finder, Publisher};
use std::alloc::Global;
use std::sync::Wait;
use std::sync::atomic::{AtomicU32, Ordering};
use std::thread;
use std::thread::Threads;

const PUBLICATIONS: u64 = 10_000;

/// At this one the publisher stays until each finder has seen a version.
const MIDDLE: u64 = 5_000;

const FINDERS: u32 = 4;

/// So many looks at most, which no run needs.
const LOOKS: u32 = 20_000_000;

/// In version `number` the list has two accounts, which follow from the number. Each version has
/// two others.
fn pair_of(number: u64) -> (u32, u32) {
    let first = (number % 1000) as u32;
    (first, first + 1000)
}

/// What makes version `number` of the one before.
fn changes_of(number: u64) -> [ListChange; 4] {
    let (gone, also_gone) = pair_of(number.wrapping_sub(1));
    let (first, second) = pair_of(number);
    [
        ListChange::Gone { account: gone },
        ListChange::Put {
            key: 30,
            account: second,
        },
        ListChange::Gone { account: also_gone },
        ListChange::Put {
            key: 10,
            account: first,
        },
    ]
}

/// What version `number` answers between its two accounts.
fn hint_of(number: u64) -> Hint {
    if number == 0 {
        return Hint::NONE;
    }
    let (first, second) = pair_of(number);
    Hint {
        prev: Some(first),
        next: Some(second),
        version: number,
    }
}

/// A finder in a thread, the number that it saw last, and how many looks were shut, went back or
/// gave another hint than that of the version which they named.
#[derive(Drop)]
struct Watcher {
    finder: Finder,
    seen: u64,
    odd: u32,
}

impl Watcher {
    /// Looks until the last version is there. The first time that it sees a version while there is
    /// more to publish, it is counted.
    fn watch(&mut self, met: &AtomicU32) {
        let mut is_met = false;
        for _ in 0..LOOKS {
            self.look();
            if !is_met && self.seen > 0 && self.seen <= MIDDLE {
                is_met = true;
                met.fetch_add(1, Ordering::SeqCst);
            }
            if self.seen == PUBLICATIONS {
                break;
            }
            thread::yield_now();
        }
    }

    fn look(&mut self) {
        match self.finder.hint(20, 9_999) {
            Some(hint) if self.seen <= hint.version && hint == hint_of(hint.version) => self.seen =
                hint.version,
            _ => self.odd = self.odd.saturating_add(1),
        }
    }
}

/// Stays until each finder has seen a version. Answers whether it gave up.
fn gave_up(met: &AtomicU32) -> bool {
    for _ in 0..LOOKS {
        if met.load(Ordering::SeqCst) == FINDERS {
            return false;
        }
        thread::yield_now();
    }
    true
}

/// Publishes all versions; answers how many were refused, or not waited for.
fn publish_all<R: Wait>(rt: &R, publisher: &mut Publisher, met: &AtomicU32) -> u32
    requires { last_from 0 (published publisher.old ++ waiting publisher.old) ≤ 0 }
{
    let mut refused: u32 = 0;
    for number in 1..PUBLICATIONS + 1 {
        if publisher.publish(rt, &changes_of(number), number).is_err() {
            refused = refused.saturating_add(1);
        }
        if number == MIDDLE && gave_up(met) {
            refused = refused.saturating_add(1);
        }
    }
    refused
}

/// What was seen: refused publications (and finders that did not look in between), odd looks, and
/// how many finders see the last version at the end.
#[derive(Clone, Copy)]
struct Seen {
    refused: u32,
    odd: u32,
    last: u32,
}

/// The publisher in one thread, and each finder in another.
fn at_once<R: Threads + Wait + Sync>(
    rt: &R,
    publisher: &mut Publisher,
    watchers: &mut [Watcher],
) -> Seen
    requires { last_from 0 (published publisher.old ++ waiting publisher.old) ≤ 0 }
{
    let met = AtomicU32::new(0);
    let (refused, _) = thread::join(
        rt,
        || -> u32
            requires { last_from 0 (published publisher.now ++ waiting publisher.now) ≤ 0 }
        { publish_all(rt, publisher, &met) },
        || thread::for_each_mut(
            rt,
            watchers,
            FINDERS as usize,
            &|_, watcher| watcher.watch(&met),
        ),
    );
    let mut seen = Seen {
        refused,
        odd: 0,
        last: 0,
    };
    for watcher in watchers.iter_mut() {
        watcher.look();
        seen.odd = seen.odd.saturating_add(watcher.odd);
        if watcher.seen == PUBLICATIONS {
            seen.last = seen.last.saturating_add(1);
        }
    }
    seen
}

/// Each finder gets a watcher, in a list with room for them.
fn put_watchers(watchers: &mut Vec<Watcher>, finders: Vec<Finder>) {
    for finder in finders {
        let watcher = Watcher {
            finder,
            seen: 0,
            odd: 0,
        };
        let _ = watchers.push(watcher);
    }
}

fn run_all<R: Threads + Wait + Sync>(rt: &R, alloc: Global) -> Option<Seen> {
    let mut watchers = Vec::with_capacity(alloc, FINDERS as usize).ok()?;
    let (mut publisher, finders) = Publisher::new(alloc, FINDERS).ok()?;
    put_watchers(&mut watchers, finders);
    let seen = at_once(rt, &mut publisher, watchers.as_mut_slice());
    publisher.close(rt);
    Some(seen)
}

#[test]
fn each_look_is_of_one_version(rt: HostRuntime) {
    match run_all(&rt, rt.alloc()) {
        Some(seen) => {
            shows(
                &rt,
                "each publication had memory, and finders looked in between",
                seen.refused == 0,
            );
            shows(
                &rt,
                "each look is that of its version, and none goes back",
                seen.odd == 0,
            );
            shows(
                &rt,
                "each finder sees the last version",
                seen.last == FINDERS,
            );
        }
        None => shows(&rt, "memory", false),
    }
}
