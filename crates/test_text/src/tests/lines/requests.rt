//! Requests and their lines, with a number of its own for each word.

use liq_types::{Call, HintWords, Query};

const HINT: HintWords = HintWords {
    prev: Some(8),
    next: Some(9),
};

/// Calls of client 21 under number 22.
pub const CALLS: [(Call, &[u8]); 18] = [
    (Call::Price(1), b"21 22 price 1"),
    (Call::Advance(1), b"21 22 advance 1"),
    (Call::Fund(1, 2), b"21 22 fund 1 2"),
    (Call::Take(1, 2), b"21 22 take 1 2"),
    (Call::Send(1, 2, 3), b"21 22 send 1 2 3"),
    (Call::Open(1, 2, 3, 4, HINT), b"21 22 open 1 2 3 4 8 9"),
    (
        Call::Open(1, 2, 3, 4, HintWords::NONE),
        b"21 22 open 1 2 3 4 - -",
    ),
    (
        Call::Adjust(1, 2, 3, 4, 5, 6, HINT),
        b"21 22 adjust 1 2 3 4 5 6 8 9",
    ),
    (Call::Close(1), b"21 22 close 1"),
    (Call::Provide(1, 2), b"21 22 provide 1 2"),
    (Call::Withdraw(1, 2), b"21 22 withdraw 1 2"),
    (Call::GainToTrove(1, HINT), b"21 22 gain_to_trove 1 8 9"),
    (Call::Liquidate(1, 2), b"21 22 liquidate 1 2"),
    (Call::LiquidateLowest(1, 2), b"21 22 liquidate_lowest 1 2"),
    (Call::Redeem(1, 2, 3, HINT), b"21 22 redeem 1 2 3 8 9"),
    (
        Call::Redeem(1, 2, 3, HintWords::NONE),
        b"21 22 redeem 1 2 3 - -",
    ),
    (Call::Claim(1), b"21 22 claim 1"),
    (Call::Rotate, b"21 22 rotate"),
];

pub const QUERIES: [(Query, &[u8]); 6] = [
    (Query::Wallet(1), b"? wallet 1"),
    (Query::Trove(1), b"? trove 1"),
    (Query::Deposit(1), b"? deposit 1"),
    (Query::Pools, b"? pools"),
    (Query::System, b"? system"),
    (Query::NextNumber(1), b"? next_number 1"),
];

/// Lines with a session in front, the session, and the line behind it.
pub const IN_SESSIONS: [(&[u8], u8, &[u8]); 9] = [
    (b"1 ? wallet 1", 1, b"? wallet 1"),
    (b"2 1 1 fund 1 2", 2, b"1 1 fund 1 2"),
    (b"3 ? pools", 3, b"? pools"),
    (b"4 ? pools", 4, b"? pools"),
    (b"5 ? pools", 5, b"? pools"),
    (b"6 ? pools", 6, b"? pools"),
    (b"7 ? pools", 7, b"? pools"),
    (b"8 ? next_number 9", 8, b"? next_number 9"),
    (
        b"8 4294967295 18446744073709551615 adjust 4294967295 18446744073709551615 \
            18446744073709551615 18446744073709551615 18446744073709551615 18446744073709551615 \
            4294967294 4294967294",
        8,
        b"4294967295 18446744073709551615 adjust 4294967295 18446744073709551615 \
            18446744073709551615 18446744073709551615 18446744073709551615 18446744073709551615 \
            4294967294 4294967294",
    ),
];

/// Lines with the greatest account word as a hint, which is read as no hint, and how they are
/// written again.
pub const ABSENT_HINTS: [(&[u8], &[u8]); 4] = [
    (b"1 1 open 1 2 3 4 4294967295 9", b"1 1 open 1 2 3 4 - 9"),
    (
        b"1 1 adjust 1 2 3 4 5 6 8 4294967295",
        b"1 1 adjust 1 2 3 4 5 6 8 -",
    ),
    (
        b"1 1 gain_to_trove 1 4294967295 4294967295",
        b"1 1 gain_to_trove 1 - -",
    ),
    (b"1 1 redeem 1 2 3 - 4294967295", b"1 1 redeem 1 2 3 - -"),
];
