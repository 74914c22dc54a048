//! Where a trove stands: in the table, in the pools that hold what it has, and in the list.

ghost use Rattle.std.specs.Prelude.{◌≡◌, ◌≤◌, ◌+◌, IsSome, Some, None, length};
ghost use Rattle.liq_types.specs.declared.amounts.TheConstants.{MIN_NET};
ghost use Rattle.liq_types.specs.Ranked.{IsTight, key_in, with_ranked, without_ranked};
ghost use Rattle.liq_types.specs.Tables.{at, without};
ghost use Rattle.liq_tables.specs.WithRoom.{HasRoom};
ghost use Rattle.liq_troves.specs.Rows.{entire_in, key_by, set_row};
ghost use Rattle.liq_troves.specs.Standing.{TrovesStand, lift as lifted, place as placed};
ghost use Rattle.liq_trove_moves.specs.Books.{books_kept, pools_with};
ghost use Rattle.liq_trove_moves.specs.Steps.{TakesFew, entry_in};

use liq_ledger::Pools;
use liq_order::Order;
use liq_troves::{Troves, entire, key};
use liq_types::amounts::{LIM, RESERVE};
use liq_types::{Hint, Steps};
use std::sync::ledger::Ledger;

/// The account's trove leaves the table, the pools that hold what it has, and the list; its room
/// stays in the table, and comes in the list. The other pools stay. Answers what it had in all:
/// gwei and micro-LUSD.
pub fn lift(pools: &mut Pools, troves: &mut Troves, order: &mut Order, account: u32) -> (u64, u64)
    requires there { IsSome (at troves.old.table.rows account) }
    requires stand { TrovesStand (books_kept troves.old pools.old) }
    requires listed { IsSome (key_in order.old.entries account) }
    requires coll { pools.old.active_coll + pools.old.default_coll ≤ LIM }
    requires debt { pools.old.active_debt + pools.old.default_debt ≤ LIM }
    ensures own { Some result ≡ entire_in troves.old.sums troves.old.table.rows account }
    ensures books { books_kept troves.new pools.new ≡ lifted (books_kept troves.old pools.old)
        account }
    ensures coll { pools.new.active_coll + pools.new.default_coll + result.0 ≡ pools.old.active_coll
        + pools.old.default_coll }
    ensures debt { pools.new.active_debt + pools.new.default_debt + result.1 ≡ pools.old.active_debt
        + pools.old.default_debt }
    ensures rest { pools.new ≡ pools_with pools.old (books_kept troves.new pools.new) }
    ensures rows { troves.new.table.rows ≡ without troves.old.table.rows account }
    ensures gone { at troves.new.table.rows account ≡ None }
    ensures list { order.new.entries ≡ without_ranked order.old.entries account }
    ensures unlisted { key_in order.new.entries account ≡ None }
    ensures shorter { length order.new.entries ≤ length order.old.entries }
    ensures room { troves.new.table.room ≡ troves.old.table.room }
    ensures had { HasRoom troves.new.table account }
    ensures spare { order.new.room ≡ order.old.room + 1 }
{
    // odd: part by part
    let sums = *troves.sums();
    let trove = troves.remove(account);
    let (coll, debt) = entire(&trove, &sums);
    pools.active_coll -= trove.coll;
    pools.active_debt -= trove.debt;
    pools.default_coll -= coll - trove.coll;
    pools.default_debt -= debt - trove.debt;
    order.remove(account);
    (coll, debt)
}

/// A trove of the account comes into the table, the active pool and the list, with these amounts in
/// gwei and micro-LUSD and nothing pending. The other pools stay. The hint changes nothing but the
/// steps: there is one at least, and with a tight hint there are four at most.
pub fn place<L: Ledger>(
    pools: &mut Pools,
    troves: &mut Troves,
    order: &mut Order,
    account: u32,
    coll: u64,
    debt: u64,
    hint: &Hint,
    steps: &mut Steps<L>,
)
    requires absent { at troves.old.table.rows account ≡ None }
    requires stand { TrovesStand (books_kept troves.old pools.old) }
    requires unlisted { key_in order.old.entries account ≡ None }
    requires some { 1 ≤ coll }
    requires least { RESERVE + MIN_NET ≤ debt }
    requires coll { pools.old.active_coll + coll ≤ LIM }
    requires debt { pools.old.active_debt + debt ≤ LIM }
    requires room { HasRoom troves.old.table account }
    requires spare { 1 ≤ order.old.room }
    ensures books { books_kept troves.new pools.new ≡ placed (books_kept troves.old pools.old)
        account coll debt }
    ensures rest { pools.new ≡ pools_with pools.old (books_kept troves.new pools.new) }
    ensures tight { IsTight order.old.entries (
      key_by (set_row troves.old.sums coll debt),
      account,
    ) hint.now.prev hint.now.next → steps.new ≤ steps.old + 4 }
    ensures few { TakesFew order.new.entries hint.now (entry_in order.new.entries account) steps.old
        steps.new }
    ensures any { steps.new ≤ steps.old + (length order.old.entries + 4) }
    ensures least { steps.old + 1 ≤ steps.new }
    ensures list { order.new.entries ≡ with_ranked order.old.entries
        (key_by (set_row troves.old.sums coll debt), account) }
    ensures room { troves.new.table.room ≡ troves.old.table.room }
    ensures spare { order.new.room + 1 ≡ order.old.room }
{
    // odd: part by part
    pools.active_coll += coll;
    pools.active_debt += debt;
    let row = troves.set(account, coll, debt);
    order.insert(key(&row), account, hint, steps);
}
