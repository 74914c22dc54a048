//! Small worlds for the tests: a few troves and their list.

ghost use Rattle.std.specs.Prelude.{◌≡◌, ◌+◌, ◌≤◌, [], ◌∷◌, None, OnOk, IfOk};
ghost use Rattle.liq_types.specs.declared.amounts.TheConstants.{LIM as lim};
ghost use Rattle.liq_types.specs.Ranked.{key_in, with_ranked};
ghost use Rattle.liq_types.specs.Tables.{put};
ghost use Rattle.liq_troves.specs.Kept.{coll_in};
ghost use Rattle.liq_troves.specs.Rows.{key_by, stakes_in};
ghost use Rattle.test_parts.specs.World.{AreFresh, IsSmall, fresh, fresh_sums};

use liq_ledger::Pools;
use liq_order::Order;
use liq_troves::{Trove, Troves, key};
use liq_types::amounts::LIM;
use liq_types::{Hint, Market, NoMemory, Steps};
use std::alloc::Global;
use std::sync::ledger::Ledger;

/// 200 percent at the opening price.
pub const FIRST: (u64, u64) = (8_440_000_000, 4_220_000_000);

/// 300 percent.
pub const SECOND: (u64, u64) = (12_660_000_000, 4_220_000_000);

/// The pools of these two.
pub const BEFORE: Pools = Pools {
    active_coll: 21_100_000_000,
    active_debt: 8_440_000_000,
    default_coll: 0,
    default_debt: 0,
    reserve: 400_000_000,
    surplus: 0,
    fee_coll: 0,
    fee_lusd: 40_000_000,
};

/// Troves and the list that has them in their order.
#[derive(Drop)]
pub struct World {
    pub troves: Troves,
    pub order: Order,
}

/// A market before any minute has passed, in which no fee was taken.
pub fn market(price: u64, total_coll: u64, total_debt: u64, troves: u64) -> Market
    ensures { result ≡ record {
      price = price;
      minute = 0;
      base = 0;
      fee_minute = 0;
      limit = LIM;
      total_coll = total_coll;
      total_debt = total_debt;
      troves = troves;
    } }
{
    Market {
        price,
        minute: 0,
        base: 0,
        fee_minute: 0,
        limit: LIM,
        total_coll,
        total_debt,
        troves,
    }
}

/// The troves of accounts 1, 2 and 3, with these amounts.
pub fn three<L: Ledger>(
    alloc: Global,
    first: (u64, u64),
    second: (u64, u64),
    third: (u64, u64),
    steps: &mut Steps<L>,
) -> Result<World, NoMemory>
    requires first { IsSmall first }
    requires second { IsSmall second }
    requires third { IsSmall third }
    ensures { IfOk result (λ w. AreFresh w.troves w.order ((1, fresh first) ∷ (2, fresh second)
        ∷ (3, fresh third) ∷ []) (first.0 + (second.0 + (third.0 + 0)))) }
{
    let mut world = two(alloc, first, second, steps)?;
    add(&mut world, 3, third, steps)?;
    Ok(world)
}

/// The troves of accounts 1 and 2, with these amounts.
pub fn two<L: Ledger>(
    alloc: Global,
    first: (u64, u64),
    second: (u64, u64),
    steps: &mut Steps<L>,
) -> Result<World, NoMemory>
    requires first { IsSmall first }
    requires second { IsSmall second }
    ensures { IfOk result (λ w. AreFresh w.troves w.order ((1, fresh first) ∷ (2, fresh second)
        ∷ []) (first.0 + (second.0 + 0))) }
{
    let mut world = World {
        troves: Troves::new(alloc),
        order: Order::new(alloc),
    };
    add(&mut world, 1, first, steps)?;
    add(&mut world, 2, second, steps)?;
    Ok(world)
}

fn add<L: Ledger>(
    world: &mut World,
    account: u32,
    own: (u64, u64),
    steps: &mut Steps<L>,
) -> Result<(), NoMemory>
    requires small { IsSmall own }
    requires sums { world.old.troves.sums ≡ fresh_sums (stakes_in world.old.troves.table.rows) }
    requires absent { key_in world.old.order.entries account ≡ None }
    requires limit { coll_in (put world.old.troves.table.rows account (fresh own)) ≤ lim }
    ensures rows { OnOk result (world.new.troves.table.rows
        ≡ put world.old.troves.table.rows account (fresh own)) }
    ensures sums { OnOk result (world.new.troves.sums
        ≡ fresh_sums (stakes_in world.new.troves.table.rows)) }
    ensures entries { OnOk result (world.new.order.entries ≡ with_ranked world.old.order.entries
        (key_by (fresh own), account)) }
{
    let (coll, debt) = own;
    world.troves.reserve(account)?;
    world.order.reserve(1)?;
    world.troves.set(account, coll, debt);
    let opened = Trove {
        coll,
        debt,
        stake: coll,
        mark_coll: 0,
        mark_debt: 0,
    };
    world
        .order
        .insert(key(&opened), account, &Hint::NONE, steps);
    Ok(())
}
