//! A follower that is fed journals, whole, cut at each byte and damaged, in pieces of several
//! sizes.

use crate::journals::{ABOVE, FIRST, LATER, REFUSED, REPEATED, ROTATING, SECOND, TROVES};
use liq_follower::{Fed, FedEnd, Follower};
use liq_types::amounts::{LIM, LIM_OF_VERSION_1};
use liq_types::{Info, Query, Reply};
use std::alloc::Global;
use std::process::Abort;

/// What a follower is and tells at its end.
#[derive(Clone, Copy, PartialEq, Eq)]
struct Seen {
    taken: u64,
    records: u64,
    limit: u64,
    end: FedEnd,
}

// What a feed answers that takes nothing, and tells this end.
fn nothing(end: FedEnd) -> Fed {
    Fed { taken: 0, end }
}

// Feeds a whole piece, whatever it tells of one before its end. Where a byte finds no memory it is
// fed again, with all behind it.
fn feed(follower: &mut Follower, piece: &[u8]) -> FedEnd {
    let fed = follower.feed(piece);
    if fed.end == FedEnd::NoMemory {
        return follower.feed(&piece[fed.taken..]).end;
    }
    fed.end
}

// What a follower is that was fed the bytes in pieces of this size, all of them.
fn follow(alloc: Global, bytes: &[u8], size: usize) -> Seen {
    let mut follower = Follower::new(alloc);
    let mut end = FedEnd::All;
    for piece in bytes.chunks(size.max(1)) {
        end = feed(&mut follower, piece);
    }
    Seen {
        taken: follower.taken(),
        records: follower.protocol().records(),
        limit: follower.protocol().limit(),
        end,
    }
}

// Stops the test where something else is seen, at one of some sizes of pieces.
fn is_seen(rt: &impl Abort, alloc: Global, bytes: &[u8], want: Seen) {
    for size in [1, 7, 64, bytes.len()] {
        assert!(rt; follow(alloc, bytes, size) == want, "a piece");
    }
}

// How many records are whole in so many bytes of a journal whose header has so many.
fn whole(count: usize, header: usize) -> u64 {
    count.saturating_sub(header) as u64 / 129
}

// Each beginning of a journal is followed as far as it goes.
fn is_followed_to_each_byte(
    rt: &impl Abort,
    alloc: Global,
    journal: &[u8],
    header: usize,
    limit: u64,
) {
    for count in 0..journal.len() {
        let want = Seen {
            taken: count as u64,
            records: whole(count, header),
            limit: if count < 9 { LIM } else { limit },
            end: FedEnd::All,
        };
        is_seen(rt, alloc, &journal[..count], want);
    }
}

#[test]
fn version_1_is_followed(rt: HostRuntime) {
    is_followed_to_each_byte(&rt, rt.alloc(), &FIRST, 57, LIM_OF_VERSION_1);
}

#[test]
fn version_2_is_followed(rt: HostRuntime) {
    is_followed_to_each_byte(&rt, rt.alloc(), &SECOND, 65, LIM);
}

// The end behind a damaged record, or the header, which is 0.
fn damaged(index: u64) -> FedEnd {
    FedEnd::Damaged { index }
}

// A journal of version 2 with three records, of which one byte is another: which, and how many
// bytes are taken, how many records made, and the end.
const CHANGED: [(usize, u8, u64, u64, FedEnd); 16] = [
    (0, 0, 453, 0, FedEnd::All),
    (0, 2, 453, 0, FedEnd::All),
    (1, 0, 57, 0, FedEnd::Damaged { index: 0 }),
    (8, 49, 57, 0, FedEnd::Damaged { index: 0 }),
    (8, 51, 57, 0, FedEnd::Damaged { index: 0 }),
    (
        9,
        1,
        65,
        0,
        FedEnd::Rotated {
            generation: 72057594037927937,
        },
    ),
    (16, 0, 65, 0, FedEnd::Damaged { index: 0 }),
    (16, 2, 65, 0, FedEnd::Rotated { generation: 2 }),
    (24, 1, 65, 0, FedEnd::Damaged { index: 0 }),
    (32, 1, 65, 0, FedEnd::Damaged { index: 0 }),
    (64, 0, 65, 0, FedEnd::Damaged { index: 0 }),
    (65, 0, 453, 0, FedEnd::All),
    (70, 9, 194, 0, FedEnd::Damaged { index: 1 }),
    (194, 2, 453, 1, FedEnd::All),
    (322, 0, 323, 1, FedEnd::Damaged { index: 2 }),
    (323, 255, 453, 2, FedEnd::All),
];

#[test]
fn damage_is_told(rt: HostRuntime) {
    for (at, byte, taken, records, end) in CHANGED {
        let mut bytes = SECOND;
        if let Some(place) = bytes.get_mut(at) {
            *place = byte;
        }
        let want = Seen {
            taken,
            records,
            limit: if at == 8 && byte == 49 {
                LIM_OF_VERSION_1
            } else {
                LIM
            },
            end,
        };
        is_seen(&rt, rt.alloc(), &bytes, want);
    }
}

// The journal of version 2 with the first record and these bytes behind it, which are a second one.
fn behind_the_first(second: &[u8; 130]) -> [u8; 324] {
    let mut bytes = [0; 324];
    bytes[..194].copy_from_slice(&SECOND[..194]);
    bytes[194..].copy_from_slice(second);
    bytes
}

// What is seen of a journal with a record that is whole and whose command is not accepted.
fn unaccepted(bytes: &[u8], records: u64, limit: u64) -> Seen {
    Seen {
        taken: (bytes.len() as u64).saturating_sub(1),
        records,
        limit,
        end: damaged(records.saturating_add(1)),
    }
}

#[test]
fn commands_that_are_not_accepted_are_damage(rt: HostRuntime) {
    let alloc = rt.alloc();
    let repeated = behind_the_first(&REPEATED);
    is_seen(&rt, alloc, &repeated, unaccepted(&repeated, 1, LIM));
    let refused = behind_the_first(&REFUSED);
    is_seen(&rt, alloc, &refused, unaccepted(&refused, 1, LIM));
    is_seen(&rt, alloc, &ROTATING, unaccepted(&ROTATING, 0, LIM));
    is_seen(&rt, alloc, &ABOVE, unaccepted(&ABOVE, 0, LIM_OF_VERSION_1));
    let later = Seen {
        taken: 65,
        records: 0,
        limit: LIM,
        end: FedEnd::Rotated { generation: 2 },
    };
    is_seen(&rt, alloc, &LATER, later);
}

// A trove with these amounts: what is told of it.
fn trove(coll: u64, debt: u64) -> Reply {
    Reply::Told(Info::Trove {
        coll,
        debt,
        stake: coll,
    })
}

#[test]
fn troves_and_deposits_are_followed(rt: HostRuntime) {
    let mut follower = Follower::new(rt.alloc());
    let (front, rest) = TROVES.split_at(500);
    let _ = feed(&mut follower, front);
    assert!(&rt;
        follower.protocol().query(&Query::Trove(2)) == Reply::Told(Info::NoTrove),
        "early"
    );
    assert!(&rt; feed(&mut follower, rest) == FedEnd::All, "the end");
    let replica = follower.protocol();
    assert!(&rt;
        replica.query(&Query::Trove(1)) == trove(30_000_000_000, 4_220_000_000),
        "first"
    );
    assert!(&rt;
        replica.query(&Query::Trove(2)) == trove(20_000_000_000, 4_220_000_000),
        "second"
    );
    let deposit = Reply::Told(Info::Deposit {
        balance: 1_000_000_000,
        gain: 0,
    });
    assert!(&rt; replica.query(&Query::Deposit(1)) == deposit, "deposit");
}

// Where memory fails, and only there, a byte finds none: it is the last of a record. The state is
// that before it, and feeding goes on.
#[test]
fn feeding_goes_on_behind_no_memory(rt: HostRuntime) {
    let mut follower = Follower::new(rt.alloc());
    let fed = follower.feed(&TROVES);
    if fed.end == FedEnd::NoMemory {
        assert!(&rt; fed.taken % 129 == (65 + 128) % 129, "a record's last byte");
        assert!(&rt;
            follower.protocol().records() == whole(fed.taken, 65),
            "records"
        );
        assert!(&rt;
            follower.feed(&[]) == nothing(FedEnd::All),
            "an empty piece"
        );
        assert!(&rt;
            follower.feed(&TROVES[fed.taken..]).end == FedEnd::All,
            "the end"
        );
    }
    assert!(&rt; follower.taken() == 711, "taken");
    assert!(&rt; follower.protocol().records() == 5, "five");
}

#[test]
fn an_empty_piece_takes_nothing(rt: HostRuntime) {
    let mut follower = Follower::new(rt.alloc());
    assert!(&rt; follower.feed(&[]) == nothing(FedEnd::All), "at the start");
    let _ = feed(&mut follower, &SECOND[..100]);
    assert!(&rt;
        follower.feed(&[]) == nothing(FedEnd::All),
        "inside a record"
    );
    let mut ended = Follower::new(rt.alloc());
    let _ = feed(&mut ended, &behind_the_first(&REFUSED));
    assert!(&rt; ended.feed(&[]) == nothing(damaged(2)), "behind damage");
    assert!(&rt; ended.feed(&SECOND) == nothing(damaged(2)), "and again");
    assert!(&rt;
        ended.taken() == 323 && ended.protocol().records() == 1,
        "nothing"
    );
}
