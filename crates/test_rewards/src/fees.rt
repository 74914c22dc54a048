//! Fees that stakers share.

ghost use Rattle.std.specs.Prelude.{◌≡◌, Ok};

use liq_fees::{
    BadStakeLine, ChangeFault, Fees, StakeLine, StakeRefusal, StakeRow, read_stake_line,
};
use std::process::Abort;

/// Something is what was worked out.
fn same<R: Abort, T: PartialEq>(rt: &R, got: &T, want: &T, what: &str) {
    assert!(rt; *got == *want, "{what}");
}

/// A change was taken.
fn taken<R: Abort>(rt: &R, change: Result<(), ChangeFault>)
    ensures { change ≡ Ok tt }
{
    assert!(rt; change.is_ok(), "a change is taken");
}

const LINES: [(&[u8], Result<StakeLine, BadStakeLine>); 5] = [
    (
        b"0 1 stake 3",
        Ok(StakeLine {
            at: 0,
            account: 1,
            amount: 3,
            out: false,
        }),
    ),
    (
        b"18446744073709551615 4294967295 unstake 0",
        Ok(StakeLine {
            at: 18_446_744_073_709_551_615,
            account: 4_294_967_295,
            amount: 0,
            out: true,
        }),
    ),
    (b"0 4294967296 stake 1", Err(BadStakeLine)),
    (b"00 1 stake 3", Err(BadStakeLine)),
    (b"0 1 stake 3 ", Err(BadStakeLine)),
];

#[test]
fn lines(rt: HostRuntime) {
    for (line, want) in &LINES {
        same(&rt, &read_stake_line(line), want, "a line");
    }
}

/// Two accounts share a fee of 20 LUSD, three sevenths and four sevenths of it. What is refused
/// changes nothing.
#[test]
fn a_fee_is_shared(rt: HostRuntime) {
    let mut fees = Fees::new(rt.alloc());
    taken(&rt, fees.change(1, 3, false));
    taken(&rt, fees.change(2, 4, false));
    fees.share(0, 20_000_000);
    let short = StakeRefusal::ShortStake { need: 4, have: 3 };
    let refused = fees.change(1, 4, true);
    same(
        &rt,
        &refused,
        &Err(ChangeFault::No(short)),
        "a stake that is short",
    );
    let first = StakeRow {
        account: 1,
        stake: 3,
        coll: 0,
        lusd: 8_571_428,
        allow: 2,
    };
    let second = StakeRow {
        account: 2,
        stake: 4,
        coll: 0,
        lusd: 11_428_571,
        allow: 2,
    };
    same(&rt, &fees.row(1), &first, "the first row");
    same(&rt, &fees.row(2), &second, "the second row");
    same(&rt, &fees.unshared(), &(0, 0), "nothing stays unshared");
}

/// What an account gained stays when it takes out its stake, and a later fee goes to the others.
#[test]
fn a_stake_is_taken_out(rt: HostRuntime) {
    let mut fees = Fees::new(rt.alloc());
    taken(&rt, fees.change(1, 3, false));
    taken(&rt, fees.change(2, 4, false));
    fees.share(0, 20_000_000);
    taken(&rt, fees.change(1, 3, true));
    fees.share(0, 4_000_000);
    let first = StakeRow {
        account: 1,
        stake: 0,
        coll: 0,
        lusd: 8_571_428,
        allow: 3,
    };
    let second = StakeRow {
        account: 2,
        stake: 4,
        coll: 0,
        lusd: 15_428_571,
        allow: 2,
    };
    same(&rt, &fees.row(1), &first, "the row without a stake");
    same(&rt, &fees.row(2), &second, "the row of all stakes");
}

#[test]
fn a_fee_stays_unshared(rt: HostRuntime) {
    let mut fees = Fees::new(rt.alloc());
    fees.share(0, 20_000_000);
    same(&rt, &fees.unshared(), &(0, 20_000_000), "all of it");
}
