//! The troves that are redeemed from.

ghost use Rattle.std.specs.Prelude.{◌≡◌, IfOk};
ghost use Rattle.liq_order.specs.Listed.{AreDistinct};
ghost use Rattle.liq_redemption.specs.Given.{AreEntireWithin};
ghost use Rattle.test_parts.specs.Two.{two_rows, two_sums, two_order};

use liq_order::Order;
use liq_troves::Troves;
use liq_types::{Hint, NoMemory, Steps};
use std::alloc::Global;
use std::sync::ledger::Ledger;

// The first has 200 percent at the opening price, the second 300, and each owes 4,220 LUSD.
pub fn two<L: Ledger>(alloc: Global, steps: &mut Steps<L>) -> Result<(Troves, Order), NoMemory>
    ensures rows { IfOk result (λ r. r.0.table.rows ≡ two_rows) }
    ensures sums { IfOk result (λ r. r.0.sums ≡ two_sums) }
    ensures order { IfOk result (λ r. r.1.entries ≡ two_order) }
    ensures entire { IfOk result (λ r. AreEntireWithin r.0.sums r.0.table.rows) }
    ensures distinct { IfOk result (λ r. AreDistinct r.1.entries) }
{
    let mut troves = Troves::new(alloc);
    troves.reserve(1)?;
    troves.set(1, 8_440_000_000, 4_220_000_000);
    troves.reserve(2)?;
    troves.set(2, 12_660_000_000, 4_220_000_000);
    let mut order = Order::new(alloc);
    order.reserve(2)?;
    order.insert(500_000_000_000_000_000, 1, &Hint::NONE, steps);
    order.insert(333_333_333_333_333_333, 2, &Hint::NONE, steps);
    Ok((troves, order))
}

// The first of the two alone.
pub fn one<L: Ledger>(alloc: Global, steps: &mut Steps<L>) -> Result<(Troves, Order), NoMemory>
    ensures entire { IfOk result (λ r. AreEntireWithin r.0.sums r.0.table.rows) }
    ensures distinct { IfOk result (λ r. AreDistinct r.1.entries) }
{
    let mut troves = Troves::new(alloc);
    troves.reserve(1)?;
    troves.set(1, 8_440_000_000, 4_220_000_000);
    let mut order = Order::new(alloc);
    order.reserve(1)?;
    order.insert(500_000_000_000_000_000, 1, &Hint::NONE, steps);
    Ok((troves, order))
}
