//! What a planned liquidation does to each part of the state.

ghost use Rattle.std.specs.Prelude.{◌≡◌, ◌≤◌, ◌+◌, ◌-◌, None, Some, IsSome};
ghost use Rattle.liq_types.specs.Payments.{credited_in, surplus_added_in};
ghost use Rattle.liq_types.specs.Ranked.{key_in, without_ranked};
ghost use Rattle.liq_types.specs.Rules.{first_refusal};
ghost use Rattle.liq_types.specs.State.{surplus_in, wallet_in};
ghost use Rattle.liq_types.specs.Tables.{at};
ghost use Rattle.liq_troves.specs.Rows.{spread_rules};
ghost use Rattle.liq_troves.specs.Standing.{TrovesStand, snap, spread};
ghost use Rattle.liq_trove_moves.specs.Books.{books_kept};
ghost use Rattle.liq_stability.specs.Kept.{room_for};
ghost use Rattle.liq_stability.specs.Words.{finished_with};
ghost use Rattle.liq_liquidation.specs.Applied.{HasRoomFor, IsPlannedOn, StayWithin, finished_in, pools_left, words_left};
ghost use Rattle.liq_liquidation.specs.One.{struck_books};

use crate::one::{One, Victim};
use liq_ledger::{Pools, Surplus, Wallets};
use liq_order::Order;
use liq_stability::Stability;
use liq_trove_moves::lift;
use liq_troves::Troves;
use liq_types::amounts::{LIM, RESERVE};

/// Makes a planned liquidation: the trove leaves, and its place in the list; the liquidator is paid
/// the trove's reserve and its gas; the Stability Pool takes over its part, if any, and no deposit
/// changes; the other troves take over the rest by their stakes, through the default pool; stakes
/// are made anew from then on; and the owner may claim what is left. All other wallets, all other
/// owners' surplus and the fees stay, and so does all room but that of one finished sum.
pub fn apply_one(
    victim: &Victim,
    liquidator: u32,
    wallets: &mut Wallets,
    pools: &mut Pools,
    surplus: &mut Surplus,
    troves: &mut Troves,
    order: &mut Order,
    stability: &mut Stability,
)
    requires planned { IsPlannedOn (books_kept troves.old pools.old) stability.old.words.total
        victim.now }
    requires within { StayWithin victim.now (wallet_in wallets.old.rows liquidator)
        (surplus_in surplus.old.rows victim.now.account) pools.old stability.old.words }
    requires room { HasRoomFor victim.now liquidator wallets.old surplus.old stability.old.spare }
    requires listed { IsSome (key_in order.old.entries victim.now.account) }
    ensures wallets { wallets.new.rows ≡ credited_in wallets.old.rows liquidator victim.now.one.gas
        RESERVE }
    ensures wallets_room { wallets.new.room ≡ wallets.old.room }
    ensures books { books_kept troves.new pools.new ≡ struck_books (books_kept troves.old pools.old)
        victim.now }
    ensures troves_room { troves.new.table.room ≡ troves.old.table.room }
    ensures pools { pools.new ≡ pools_left pools.old (books_kept troves.new pools.new)
        victim.now.one }
    ensures surplus { surplus.new.rows ≡ surplus_added_in surplus.old.rows victim.now.account
        victim.now.one.surplus }
    ensures surplus_room { surplus.new.room ≡ surplus.old.room }
    ensures order { order.new.entries ≡ without_ranked order.old.entries victim.now.account }
    ensures order_room { order.new.room ≡ order.old.room + 1 }
    ensures words { stability.new.words ≡ words_left stability.old.words victim.now.one }
    ensures finished { stability.new.finished ≡ finished_with stability.old.finished
        (finished_in stability.old.words victim.now.one) }
    ensures deposits { stability.new.deposits ≡ stability.old.deposits }
    ensures spare { stability.new.spare + room_for (finished_in stability.old.words victim.now.one)
        ≡ stability.old.spare }
{
    // odd: part by part
    let one = &victim.one;
    lift(pools, troves, order, victim.account);
    wallets.pay(liquidator, one.gas, RESERVE);
    pools.reserve -= RESERVE;
    if one.offset_debt > 0 {
        stability.offset(one.offset_debt, one.offset_coll);
    }
    hand_on(one, pools, troves);
    surplus.add(victim.account, one.surplus);
    pools.surplus += one.surplus;
}

/// The troves that are left take over the rest, and stakes are made by them from then on.
fn hand_on(one: &One, pools: &mut Pools, troves: &mut Troves)
    requires stands { TrovesStand (books_kept troves.old pools.old) }
    requires some { 1 ≤ troves.old.sums.stakes }
    requires fits { first_refusal (spread_rules troves.old.sums one.now.spread_coll
        one.now.spread_debt) ≡ None }
    requires coll { pools.old.active_coll + pools.old.default_coll + one.now.spread_coll ≤ LIM }
    requires debt { pools.old.active_debt + pools.old.default_debt + one.now.spread_debt ≤ LIM }
    ensures books { books_kept troves.new pools.new
        ≡ snap (spread (books_kept troves.old pools.old) one.now.spread_coll one.now.spread_debt) }
    ensures room { troves.new.table.room ≡ troves.old.table.room }
    ensures rest { pools.new ≡ record pools.old {
      default_coll = pools.new.default_coll;
      default_debt = pools.new.default_debt;
    } }
{
    match troves.redistribute(one.spread_coll, one.spread_debt) {
        Ok(()) => {}
        Err(_) => unreachable!(),
    }
    pools.default_coll += one.spread_coll;
    pools.default_debt += one.spread_debt;
    troves.snapshot(pools.active_coll + pools.default_coll);
}
