//! Where a trove stands: in the table, in the pools that hold what it has, and in the list.

ghost use Rattle.std.specs.Prelude.{◌≡◌, ◌≤◌, ◌+◌, IsSome, length};
ghost use Rattle.liq_types.specs.declared.amounts.TheConstants.{MIN_NET};
ghost use Rattle.liq_types.specs.Tables.{at};
ghost use Rattle.liq_tables.specs.WithRoom.{HasRoom};
ghost use Rattle.liq_troves.specs.Standing.{lift as lifted, place as placed};
ghost use Rattle.liq_order.specs.Order.{order_by};
ghost use Rattle.liq_trove_moves.specs.Books.{books_kept, SameOthers};
ghost use Rattle.liq_trove_moves.specs.Steps.{TakesFew, entry_in};
ghost use Rattle.liq_core.specs.Held.{AreHeld};

use liq_borrow::Plan;
use liq_ledger::Pools;
use liq_order::Order;
use liq_trove_moves::{lift, place};
use liq_troves::Troves;
use liq_types::amounts::{LIM, RESERVE};
use liq_types::{Hint, Steps};
use std::sync::ledger::Ledger;

/// The account's trove leaves the table, the pools and the list. The other pools stay, and
/// its room does in table and list.
pub(crate) fn lift_trove(pools: &mut Pools, troves: &mut Troves, order: &mut Order, account: u32)
    requires there { IsSome (at troves.old.table.rows account) }
    requires held { AreHeld pools.old troves.old order.old }
    ensures books { books_kept troves.new pools.new ≡ lifted (books_kept troves.old pools.old)
        account }
    ensures others { SameOthers pools.old pools.new }
    ensures list { order.new.entries ≡ order_by troves.new.table.rows }
    ensures room { HasRoom troves.new.table account }
    ensures spare { order.new.room ≡ order.old.room + 1 }
    ensures shorter { length order.new.entries ≤ length order.old.entries }
{
    lift(pools, troves, order, account);
}

/// The account's trove changes to what is planned: it leaves, and comes in again with nothing
/// pending. The other pools stay.
pub(crate) fn change_trove<L: Ledger>(
    pools: &mut Pools,
    troves: &mut Troves,
    order: &mut Order,
    account: u32,
    plan: &Plan,
    hint: &Hint,
    steps: &mut Steps<L>,
)
    requires there { IsSome (at troves.old.table.rows account) }
    requires held { AreHeld pools.old troves.old order.old }
    requires some { 1 ≤ plan.now.coll }
    requires least { RESERVE + MIN_NET ≤ plan.now.debt }
    requires active_coll { (lifted (books_kept troves.old pools.old) account).active_coll
        + plan.now.coll ≤ LIM }
    requires active_debt { (lifted (books_kept troves.old pools.old) account).active_debt
        + plan.now.debt ≤ LIM }
    ensures books { books_kept troves.new pools.new
        ≡ placed (lifted (books_kept troves.old pools.old) account) account plan.now.coll
        plan.now.debt }
    ensures others { SameOthers pools.old pools.new }
    ensures list { order.new.entries ≡ order_by troves.new.table.rows }
    ensures few { TakesFew order.new.entries hint.now (entry_in order.new.entries account) steps.old
        steps.new }
    ensures any { steps.new ≤ steps.old + (length order.old.entries + 4) }
{
    lift_trove(pools, troves, order, account);
    let (coll, debt) = (plan.coll, plan.debt);
    place(pools, troves, order, account, coll, debt, hint, steps);
}
