//! The troves on the way of a redemption.

ghost use Rattle.std.specs.Prelude.{◌≡◌, ◌≤◌};
ghost use Rattle.liq_types.specs.declared.amounts.TheConstants.{PRICE_MOST};
ghost use Rattle.liq_redemption.specs.Given.{AreEntireWithin};
ghost use Rattle.liq_redemption.specs.Redemption as rules;

use liq_num::ratio_below;
use liq_troves::{Troves, entire};
use liq_types::amounts::{MCR, RESERVE};

/// A trove on the way of a redemption, with its entire amounts.
#[derive(Clone, Copy)]
pub struct Visit {
    pub account: u32,
    /// Gwei.
    pub coll: u64,
    /// Micro-LUSD.
    pub debt: u64,
}

impl Visit {
    /// The debt beside the reserve, in micro-LUSD.
    pub fn net_debt(&self) -> u64
        ensures { result ≡ rules.net_debt self.now }
    {
        self.debt.saturating_sub(RESERVE)
    }
}

/// The account's trove, if it has one that is visited: one below the least ratio is left to
/// liquidation.
pub(crate) fn visit_at(price: u64, troves: &Troves, account: u32) -> Option<Visit>
    requires price { price ≤ PRICE_MOST }
    requires entire { AreEntireWithin troves.now.sums troves.now.table.rows }
    ensures { result ≡ rules.visit_at price troves.now.sums troves.now.table.rows account }
{
    let trove = troves.get(account)?;
    let (coll, debt) = entire(trove, troves.sums());
    if ratio_below(coll, debt, price, MCR) {
        return None;
    }
    Some(Visit {
        account,
        coll,
        debt,
    })
}
