//! What a planned redemption does to each part of the state, on room that was reserved for it.

ghost use Rattle.std.specs.Prelude.{◌≡◌, ◌≤◌, ◌+◌, IsOk, OnOk, count_by, length, if◌then◌else◌};
ghost use Rattle.liq_types.specs.declared.amounts.TheConstants.{LIM};
ghost use Rattle.liq_types.specs.State.{wallet_in, surplus_in};
ghost use Rattle.liq_types.specs.WellFormed.{Ascends};
ghost use Rattle.liq_tables.specs.WithRoom.{HasRoom, KeepsRoom};
ghost use Rattle.liq_troves.specs.Kept.{Kept};
ghost use Rattle.liq_order.specs.Listed.{Listed};
ghost use Rattle.liq_trove_moves.specs.Steps.{TakesFew};
ghost use Rattle.liq_redemption.specs.Last.{CutTakes, last_entry};
ghost use Rattle.liq_redemption.specs.Given.{AreSoundParts, IsPlannedOn, HasRoomFor, HasRoomToClose, CutFits};
ghost use Rattle.liq_redemption.specs.Parts.{parts_of, closed_parts, cut_parts, redeemed_parts, redeemed_wallets};

use crate::cut::Cut;
use crate::planning::RedeemPlan;
use liq_ledger::{Pools, Surplus, Wallets};
use liq_order::Order;
use liq_trove_moves::{lift, place};
use liq_troves::Troves;
use liq_types::amounts::RESERVE;
use liq_types::{Hint, NoMemory, Steps};
use std::sync::ledger::Ledger;

/// Makes room for what [`apply`] writes: the account's wallet, and what the owners of closed troves
/// may claim. Wallets and claims stay, also where there is no memory, and so does all room that
/// there was. Where there was this room none is wanted.
pub fn reserve(
    plan: &RedeemPlan,
    account: u32,
    wallets: &mut Wallets,
    surplus: &mut Surplus,
) -> Result<(), NoMemory>
    ensures wallets { wallets.new.rows ≡ wallets.old.rows }
    ensures claims { surplus.new.rows ≡ surplus.old.rows }
    ensures room { OnOk result (HasRoomFor plan.now account wallets.new surplus.new) }
    ensures wallets_kept { KeepsRoom wallets.old wallets.new }
    ensures claims_kept { KeepsRoom surplus.old surplus.new }
    ensures had { HasRoomFor plan.now account wallets.old surplus.old → IsOk result }
{
    wallets.reserve(account)?;
    for cut in plan.cuts.as_slice() {
        reserve_claim(cut, surplus)?;
    }
    Ok(())
}

/// Makes room for what the owner of a trove may claim, where it is closed.
fn reserve_claim(cut: &Cut, surplus: &mut Surplus) -> Result<(), NoMemory>
    ensures rows { surplus.new.rows ≡ surplus.old.rows }
    ensures room { OnOk result (HasRoomToClose surplus.new cut.now) }
    ensures kept { KeepsRoom surplus.old surplus.new }
    ensures had { HasRoomToClose surplus.old cut.now → IsOk result }
{
    if !cut.full {
        return Ok(());
    }
    surplus.reserve(&[cut.account])
}

/// Carries out the redemption of an account that was planned on this state. The planned cuts are
/// made: a trove of which all debt beside the reserve is taken leaves, its reserve is burned, and
/// its owner may claim what is left of its collateral; any other one is set to what is left, and
/// moves to its place in the list, where the hint may save a search. The redeemed LUSD is burned,
/// the account gets what is drawn less the fee, and the fee pool the fee. All other wallets, troves
/// and claims stay. It takes no memory: there is room for the account's wallet and for what the
/// owners of closed troves may claim. The last trove alone may move in the list: with a hint that
/// is tight for it there are four steps at most.
pub fn apply<L: Ledger>(
    plan: &RedeemPlan,
    account: u32,
    hint: &Hint,
    wallets: &mut Wallets,
    pools: &mut Pools,
    surplus: &mut Surplus,
    troves: &mut Troves,
    order: &mut Order,
    steps: &mut Steps<L>,
)
    requires sound { AreSoundParts (parts_of pools.old surplus.old troves.old order.old)
        (wallet_in wallets.old.rows account) }
    requires planned { IsPlannedOn (parts_of pools.old surplus.old troves.old order.old)
        (wallet_in wallets.old.rows account) plan.now }
    requires ascend { Ascends wallets.old.rows }
    requires room { HasRoomFor plan.now account wallets.old surplus.old }
    ensures parts { parts_of pools.new surplus.new troves.new order.new
        ≡ redeemed_parts (parts_of pools.old surplus.old troves.old order.old) plan.now }
    ensures wallets { wallets.new.rows ≡ redeemed_wallets wallets.old.rows account plan.now }
    ensures wallet_room { wallets.new.room ≡ wallets.old.room }
    ensures surplus_room { surplus.new.room ≡ surplus.old.room }
    ensures trove_room { troves.new.table.room ≡ troves.old.table.room }
    ensures order_room { order.new.room ≡ order.old.room + count_by (λ cut. cut.full)
        plan.now.cuts }
    ensures few { TakesFew order.new.entries hint.now (last_entry order.new.entries plan.now.cuts)
        steps.old steps.new }
    ensures any { steps.new ≤ steps.old + (length order.old.entries + 4) }
{
    // odd: part by part
    for cut in plan.cuts.as_slice() {
        take_down(cut, hint, pools, surplus, troves, order, steps);
    }
    pools.fee_coll += plan.fee;
    match wallets.charge(account, 0, plan.redeemed) {
        Ok(()) => {}
        Err(_) => unreachable!(),
    }
    wallets.pay(account, plan.drawn - plan.fee, 0);
}

/// Makes one cut.
fn take_down<L: Ledger>(
    cut: &Cut,
    hint: &Hint,
    pools: &mut Pools,
    surplus: &mut Surplus,
    troves: &mut Troves,
    order: &mut Order,
    steps: &mut Steps<L>,
)
    requires fits { CutFits (parts_of pools.old surplus.old troves.old order.old) cut.now }
    requires room { HasRoomToClose surplus.old cut.now }
    ensures parts { parts_of pools.new surplus.new troves.new order.new
        ≡ cut_parts (parts_of pools.old surplus.old troves.old order.old) cut.now }
    ensures surplus_room { surplus.new.room ≡ surplus.old.room }
    ensures trove_room { troves.new.table.room ≡ troves.old.table.room }
    ensures order_room { order.new.room ≡ order.old.room + (if cut.now.full then 1 else 0) }
    ensures takes { CutTakes cut.now hint.now order.old.entries order.new.entries steps.old
        steps.new }
{
    let (coll, debt) = lift(pools, troves, order, cut.account);
    let coll = coll - cut.draw;
    if cut.full {
        close(cut.account, coll, pools, surplus);
    } else {
        let debt = debt - cut.lot;
        place(pools, troves, order, cut.account, coll, debt, hint, steps);
    }
}

/// Burns the reserve of a trove that has left; its owner may claim what is left of its collateral
/// (gwei).
fn close(account: u32, coll: u64, pools: &mut Pools, surplus: &mut Surplus)
    requires room { HasRoom surplus.old account }
    requires claim { surplus_in surplus.old.rows account + coll ≤ LIM }
    requires total { pools.old.surplus + coll ≤ LIM }
    ensures parts { (troves : Kept) → (order : Listed) → parts_of pools.new surplus.new troves order
        ≡ closed_parts (parts_of pools.old surplus.old troves order) account coll }
    ensures surplus_room { surplus.new.room ≡ surplus.old.room }
{
    pools.reserve = pools.reserve.saturating_sub(RESERVE);
    pools.surplus += coll;
    surplus.add(account, coll);
}
