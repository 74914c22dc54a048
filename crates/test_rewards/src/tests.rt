//! The tests.

ghost use Rattle.std.specs.Prelude.{◌≡◌, ◌≤◌, [], ◌∷◌, List};
ghost use Rattle.liq_rewards.specs.Timed.{Timed, timed};
ghost use Rattle.liq_rewards.specs.Kept.{HasRoomFor, IsKeptOf, MayHappen};

use liq_rewards::{
    BadTagLine, RewardRow, Rewards, TagLine, UNITS_MOST, YEAR, YEARS, issued, read_tag_line,
};
use liq_text_rewards::rewards_text;
use liq_types::PoolEvent;
use std::alloc::Global;
use std::process::Abort;

/// Something is what was worked out.
fn same<R: Abort, T: PartialEq>(rt: &R, got: &T, want: &T, what: &str) {
    assert!(rt; *got == *want, "{what}");
}

/// An account has earned this, and may fall short by that.
fn earned<R: Abort>(rt: &R, rewards: &Rewards, account: u32, reward: u64, allow: u128) {
    let row = RewardRow {
        account,
        reward,
        allow,
    };
    same(rt, &rewards.row(account), &row, "a row");
}

/// So much was issued, and that was not shared.
fn told<R: Abort>(rt: &R, rewards: &Rewards, issued: u64, unshared: u64) {
    same(rt, &rewards.issued(), &issued, "what was issued");
    same(rt, &rewards.unshared(), &unshared, "what was not shared");
}

/// So the rewards of accounts are told, where lines name front ends.
fn text<R: Abort>(
    rt: &R,
    alloc: Global,
    rewards: &Rewards,
    lines: &[TagLine],
    accounts: &[u32],
    want: &[u8],
) {
    let mut out = Vec::new(alloc);
    let told = rewards_text(lines, rewards, accounts, &mut out);
    assert!(rt; told.is_ok(), "the text is made");
    assert!(rt; out.as_slice() == want, "the text");
}

fn room<R: Abort>(rt: &R, rewards: &mut Rewards, event: &PoolEvent)
    ensures kept { (past : List Timed) → IsKeptOf rewards.old past → IsKeptOf rewards.new past }
    ensures minute { rewards.new.minute ≡ rewards.old.minute }
    ensures room { HasRoomFor rewards.new.earners event.now }
{
    let account = match event {
        PoolEvent::Own { account, .. } => Some(*account),
        PoolEvent::Offset { .. } => None,
    };
    let reserved = rewards.reserve(account);
    assert!(rt; reserved.is_ok(), "there is room");
}

/// An event happens in a minute.
fn happens<R: Abort>(rt: &R, rewards: &mut Rewards, minute: u64, event: PoolEvent)
    requires later { rewards.old.minute ≤ minute }
    requires may { ∥ ((past : List Timed) × IsKeptOf rewards.old past
        × MayHappen (timed minute event) past) ∥₁ }
    ensures kept { (past : List Timed) → IsKeptOf rewards.old past
        → MayHappen (timed minute event) past →
        IsKeptOf rewards.new (timed minute event ∷ past) }
    ensures minute { rewards.new.minute ≡ minute }
{
    room(rt, rewards, &event);
    rewards.to_minute(minute);
    rewards.event(&event);
}

/// LUSD into an account's deposit, which has this amount then.
fn provide<R: Abort>(
    rt: &R,
    rewards: &mut Rewards,
    minute: u64,
    account: u32,
    put: u64,
    amount: u64,
)
    requires later { rewards.old.minute ≤ minute }
    requires may { ∥ ((past : List Timed) × IsKeptOf rewards.old past
        × MayHappen (timed minute (PoolEvent.Own account put 0 0 amount)) past) ∥₁ }
    ensures kept { (past : List Timed) → IsKeptOf rewards.old past →
        MayHappen (timed minute (PoolEvent.Own account put 0 0 amount)) past →
        IsKeptOf rewards.new (timed minute (PoolEvent.Own account put 0 0 amount) ∷ past) }
    ensures minute { rewards.new.minute ≡ minute }
{
    let event = PoolEvent::Own {
        account,
        put,
        paid: 0,
        gain: 0,
        amount,
    };
    happens(rt, rewards, minute, event);
}

/// LUSD out of an account's deposit, which has this amount then.
fn withdraw<R: Abort>(
    rt: &R,
    rewards: &mut Rewards,
    minute: u64,
    account: u32,
    paid: u64,
    amount: u64,
)
    requires later { rewards.old.minute ≤ minute }
    requires may { ∥ ((past : List Timed) × IsKeptOf rewards.old past
        × MayHappen (timed minute (PoolEvent.Own account 0 paid 0 amount)) past) ∥₁ }
    ensures kept { (past : List Timed) → IsKeptOf rewards.old past →
        MayHappen (timed minute (PoolEvent.Own account 0 paid 0 amount)) past →
        IsKeptOf rewards.new (timed minute (PoolEvent.Own account 0 paid 0 amount) ∷ past) }
    ensures minute { rewards.new.minute ≡ minute }
{
    let event = PoolEvent::Own {
        account,
        put: 0,
        paid,
        gain: 0,
        amount,
    };
    happens(rt, rewards, minute, event);
}

/// The pool takes over debt, and has this total before.
fn offset<R: Abort>(
    rt: &R,
    rewards: &mut Rewards,
    minute: u64,
    debt: u64,
    coll: u64,
    total: u64,
    rise: u64,
)
    requires later { rewards.old.minute ≤ minute }
    requires may { ∥ ((past : List Timed) × IsKeptOf rewards.old past
        × MayHappen (timed minute (PoolEvent.Offset debt coll total rise)) past) ∥₁ }
    ensures kept { (past : List Timed) → IsKeptOf rewards.old past →
        MayHappen (timed minute (PoolEvent.Offset debt coll total rise)) past →
        IsKeptOf rewards.new (timed minute (PoolEvent.Offset debt coll total rise) ∷ past) }
    ensures minute { rewards.new.minute ≡ minute }
{
    let event = PoolEvent::Offset {
        debt,
        coll,
        total,
        rise,
    };
    happens(rt, rewards, minute, event);
}

const LINES: [(&[u8], Result<TagLine, BadTagLine>); 7] = [
    (
        b"tag 1 9 250000000000000000",
        Ok(TagLine {
            account: 1,
            front: 9,
            kept_part: 250_000_000_000_000_000,
        }),
    ),
    (
        b"tag 4294967295 1048576 18446744073709551615",
        Ok(TagLine {
            account: 4_294_967_295,
            front: 1_048_576,
            kept_part: 18_446_744_073_709_551_615,
        }),
    ),
    (
        b"tag 0 0 0",
        Ok(TagLine {
            account: 0,
            front: 0,
            kept_part: 0,
        }),
    ),
    (b"tag 4294967296 9 1", Err(BadTagLine)),
    (b"tag 1 9 18446744073709551616", Err(BadTagLine)),
    (b"tag 1 09 1", Err(BadTagLine)),
    (b"tag 1 9", Err(BadTagLine)),
];

#[test]
fn lines(rt: HostRuntime) {
    for (line, want) in &LINES {
        same(&rt, &read_tag_line(line), want, "a line");
    }
}

/// From each year to the next a minute issues half as much.
#[test]
fn years(rt: HostRuntime) {
    same(&rt, &issued(0), &0, "before the first minute");
    same(&rt, &issued(1), &30_000, "the first minute");
    same(&rt, &issued(YEAR - 1), &15_767_970_000, "all but the last");
    same(&rt, &issued(YEAR), &15_768_000_000, "the first year");
    same(
        &rt,
        &issued(YEAR + 1),
        &15_768_015_000,
        "the first of the next",
    );
    let last = u64::from(YEARS) * YEAR;
    same(&rt, &issued(last - 1), &31_532_320_799, "all but one unit");
    same(&rt, &issued(last), &UNITS_MOST, "all units");
    same(&rt, &issued(last + 1), &UNITS_MOST, "and no more");
}

/// Two deposits share units before an offset and after it, one third and two thirds of them. One of
/// them came through a front end.
#[test]
fn two_deposits_share(rt: HostRuntime) {
    let mut rewards = Rewards::new(rt.alloc());
    provide(&rt, &mut rewards, 0, 1, 1_000_000_000, 1_000_000_000);
    provide(&rt, &mut rewards, 0, 2, 2_000_000_000, 2_000_000_000);
    offset(
        &rt,
        &mut rewards,
        3,
        1_000_000_000,
        700_000_000,
        3_000_000_000,
        0,
    );
    rewards.to_minute(4);
    earned(&rt, &rewards, 1, 39_999, 8);
    earned(&rt, &rewards, 2, 79_999, 10);
    earned(&rt, &rewards, 3, 0, 0);
    told(&rt, &rewards, 120_000, 0);
    let tag = TagLine {
        account: 1,
        front: 9,
        kept_part: 250_000_000_000_000_000,
    };
    let want = b"ok\n1 39999 8 9999 9 30000\n2 79999 10 79999 - 0\nissued 120000 unshared 0\n";
    text(&rt, rt.alloc(), &rewards, &[tag], &[1, 2], want);
}

/// An epoch's end in the minute of a sharing. What is issued while nobody has a deposit is not
/// shared.
#[test]
fn an_epoch_ends(rt: HostRuntime) {
    let mut rewards = Rewards::new(rt.alloc());
    provide(&rt, &mut rewards, 0, 1, 4_000_000_000, 4_000_000_000);
    offset(&rt, &mut rewards, 2, 4_000_000_000, 0, 4_000_000_000, 0);
    rewards.to_minute(3);
    earned(&rt, &rewards, 1, 60_000, 9);
    told(&rt, &rewards, 90_000, 30_000);
    provide(&rt, &mut rewards, 3, 2, 1_000_000_000, 1_000_000_000);
    rewards.to_minute(5);
    earned(&rt, &rewards, 1, 60_000, 10);
    earned(&rt, &rewards, 2, 60_000, 6);
    told(&rt, &rewards, 150_000, 30_000);
}

/// One micro-LUSD too little in the pool, and enough.
#[test]
fn the_least_total(rt: HostRuntime) {
    let mut rewards = Rewards::new(rt.alloc());
    provide(&rt, &mut rewards, 0, 1, 999_999_999, 999_999_999);
    rewards.to_minute(1);
    earned(&rt, &rewards, 1, 0, 4);
    told(&rt, &rewards, 30_000, 30_000);
    provide(&rt, &mut rewards, 1, 1, 1, 1_000_000_000);
    rewards.to_minute(2);
    earned(&rt, &rewards, 1, 30_000, 10);
    told(&rt, &rewards, 60_000, 30_000);
}

/// What is issued while nobody has a deposit stays unshared.
#[test]
fn nobody_has_a_deposit(rt: HostRuntime) {
    let mut rewards = Rewards::new(rt.alloc());
    told(&rt, &rewards, 0, 0);
    rewards.to_minute(YEAR + 1);
    earned(&rt, &rewards, 1, 0, 0);
    told(&rt, &rewards, 15_768_015_000, 15_768_015_000);
}

/// What an account earned stays when it takes out its deposit, and its allowance may grow on.
#[test]
fn a_deposit_is_taken_out(rt: HostRuntime) {
    let mut rewards = Rewards::new(rt.alloc());
    provide(&rt, &mut rewards, 0, 1, 3_000_000_000, 3_000_000_000);
    provide(&rt, &mut rewards, 1, 2, 1_000_000_000, 1_000_000_000);
    withdraw(&rt, &mut rewards, 2, 1, 3_000_000_000, 0);
    rewards.to_minute(3);
    earned(&rt, &rewards, 1, 52_500, 17);
    earned(&rt, &rewards, 2, 37_500, 8);
    told(&rt, &rewards, 90_000, 0);
}

/// The scale rises by one and then by two, and the allowances cover what is lost.
#[test]
fn the_scale_rises(rt: HostRuntime) {
    let whole = 1_000_000_000_000_000_000;
    let mut rewards = Rewards::new(rt.alloc());
    provide(&rt, &mut rewards, 0, 1, whole, whole);
    offset(&rt, &mut rewards, 1, whole - 1, 0, whole, 1);
    provide(&rt, &mut rewards, 1, 2, whole - 1, whole - 1);
    offset(&rt, &mut rewards, 2, whole - 1, 0, whole, 2);
    provide(&rt, &mut rewards, 2, 3, whole - 1, whole - 1);
    rewards.to_minute(3);
    earned(&rt, &rewards, 1, 30_000, 1_000_000_009);
    earned(&rt, &rewards, 2, 0, 1_000_000_006);
    earned(&rt, &rewards, 3, 0, 1_000_000_005);
    told(&rt, &rewards, 90_000, 0);
}

/// One offset raises the scale by three, and then an account earns in the fourth scale of its mark
/// alone.
#[test]
fn the_fourth_scale(rt: HostRuntime) {
    let whole = 1_000_000_000_000_000_000;
    let most = 10_000_000_000_000_000_000;
    let mut rewards = Rewards::new(rt.alloc());
    provide(&rt, &mut rewards, 0, 1, whole, whole);
    offset(&rt, &mut rewards, 0, whole - 1, 0, whole, 1);
    provide(&rt, &mut rewards, 0, 2, most - 1, most - 1);
    offset(&rt, &mut rewards, 0, most - 1, 0, most, 3);
    provide(&rt, &mut rewards, 0, 3, 1_000_000_000, 1_000_000_000);
    rewards.to_minute(8_000_000);
    earned(&rt, &rewards, 1, 0, 31_532_320_837);
    earned(&rt, &rewards, 2, 31, 315_323_207_722);
    earned(&rt, &rewards, 3, 31_532_320_768, 37);
    told(&rt, &rewards, 31_532_320_800, 0);
}
