//! The way of a redemption along the troves, from the list's end to its front.

ghost use Rattle.std.specs.Prelude.{◌≡◌, ◌≤◌, ◌<◌, ◌+◌, ◌*◌, ◌^◌, ◌∷◌, List, Some, IfOk, unwrap_or};
ghost use Rattle.std.specs.List.{cons_option};
ghost use Rattle.liq_types.specs.declared.amounts.TheConstants.{PRICE_LEAST, PRICE_MOST};
ghost use Rattle.liq_order.specs.Listed.{AreDistinct};
ghost use Rattle.liq_redemption.specs.Given.{AreEntireWithin};
ghost use Rattle.liq_redemption.specs.Redemption as rules;
ghost use Rattle.liq_redemption.specs.Walk.{all_cuts, first_net_of, ahead_where};

use crate::cut::Cut;
use crate::cuts::Cuts;
use crate::visit::{Visit, visit_at};
use liq_num::{GWEI_PER_ETH, mul_div};
use liq_order::Order;
use liq_troves::Troves;
use liq_types::NoMemory;
use liq_types::amounts::MIN_NET;
use std::alloc::Global;

/// How far a redemption has come.
#[derive(Drop)]
pub struct Walk {
    pub cuts: Cuts,
    /// What is still to be redeemed, in micro-LUSD.
    pub wanted: u64,
    /// How many troves the protocol has after the cuts.
    pub troves: u64,
    /// The debt beside the reserve of the first trove that was visited, in micro-LUSD.
    pub first_net: Option<u64>,
}

impl Walk {
    /// Passes the account's trove, and takes of it what may be taken. Answers whether the
    /// redemption goes on.
    fn pass(&mut self, price: u64, troves: &Troves, account: u32) -> Result<bool, NoMemory>
        requires least { PRICE_LEAST ≤ price }
        requires most { price ≤ PRICE_MOST }
        requires entire { AreEntireWithin troves.now.sums troves.now.table.rows }
        requires some { 1 ≤ self.old.wanted }
        requires wanted { self.old.wanted * GWEI_PER_ETH < 2 ^ 64 * price }
        ensures cuts { IfOk result (λ on. (ahead : List rules.Visit)
            → all_cuts price self.new (ahead_where on ahead) ≡ all_cuts price self.old
            (cons_option (rules.visit_at price troves.now.sums troves.now.table.rows account)
            ahead)) }
        ensures first { IfOk result (λ on. (ahead : List rules.Visit)
            → first_net_of self.new (ahead_where on ahead)
            ≡ first_net_of self.old (cons_option (rules.visit_at price troves.now.sums
            troves.now.table.rows account) ahead)) }
        ensures wanted { IfOk result (λ _. rules.redeemed self.new.cuts + self.new.wanted
            ≡ rules.redeemed self.old.cuts + self.old.wanted) }
    {
        match visit_at(price, troves, account) {
            Some(visit) => self.take(price, &visit),
            None => Ok(true),
        }
    }

    /// Takes what may be taken of a trove. Answers whether the redemption goes on after it.
    fn take(&mut self, price: u64, visit: &Visit) -> Result<bool, NoMemory>
        requires least { PRICE_LEAST ≤ price }
        requires some { 1 ≤ self.old.wanted }
        requires wanted { self.old.wanted * GWEI_PER_ETH < 2 ^ 64 * price }
        ensures cuts { IfOk result (λ on. (ahead : List rules.Visit)
            → all_cuts price self.new (ahead_where on ahead) ≡ all_cuts price self.old (visit.now
            ∷ ahead)) }
        ensures first { IfOk result (λ _. self.new.first_net
            ≡ Some (unwrap_or self.old.first_net (rules.net_debt visit.now))) }
        ensures wanted { IfOk result (λ _. rules.redeemed self.new.cuts + self.new.wanted
            ≡ rules.redeemed self.old.cuts + self.old.wanted) }
    {
        self.first_net = Some(self.first_net.unwrap_or(visit.net_debt()));
        let cut = cut_of(price, visit, self.wanted);
        if stops_before(visit, &cut, self.troves) {
            return Ok(false);
        }
        self.cuts.push(cut)?;
        self.wanted -= cut.lot;
        if cut.full {
            self.troves -= 1;
        }
        Ok(true)
    }
}

/// What a redemption of so much takes of a trove, by a price in micro-LUSD per ether.
fn cut_of(price: u64, visit: &Visit, wanted: u64) -> Cut
    requires least { PRICE_LEAST ≤ price }
    requires wanted { wanted * GWEI_PER_ETH < 2 ^ 64 * price }
    ensures cut { result ≡ rules.cut_of price visit.now wanted }
{
    let net = visit.net_debt();
    let lot = wanted.min(net);
    Cut {
        account: visit.account,
        lot,
        draw: mul_div(u128::from(lot), u128::from(GWEI_PER_ETH), u128::from(price)) as u64,
        full: lot == net,
    }
}

/// Whether a redemption ends before a cut: the protocol keeps one of its troves, and a trove that
/// is left keeps the least debt.
fn stops_before(visit: &Visit, cut: &Cut, troves: u64) -> bool
    ensures { result ≡ rules.stops_before visit.now cut.now troves }
{
    if cut.full {
        troves <= 1
    } else {
        visit.net_debt().saturating_sub(cut.lot) < MIN_NET
    }
}

/// The cuts along the troves from the list's end, for so much LUSD (micro-LUSD) at most, where the
/// protocol has so many troves.
pub fn along(
    alloc: Global,
    price: u64,
    count: u64,
    troves: &Troves,
    order: &Order,
    amount: u64,
) -> Result<Walk, NoMemory>
    requires least { PRICE_LEAST ≤ price }
    requires most { price ≤ PRICE_MOST }
    requires entire { AreEntireWithin troves.now.sums troves.now.table.rows }
    requires distinct { AreDistinct order.now.entries }
    requires some { 1 ≤ amount }
    requires amount { amount * GWEI_PER_ETH < 2 ^ 64 * price }
    ensures cuts { IfOk result (λ w. w.cuts ≡ rules.cuts price count amount
        (rules.visited_by price troves.now.sums troves.now.table.rows order.now.entries)) }
    ensures first { IfOk result (λ w. rules.redeemed w.cuts ≡ 0 → unwrap_or w.first_net 0
        ≡ rules.first_net (rules.visited_by price troves.now.sums troves.now.table.rows
        order.now.entries)) }
    ensures wanted { IfOk result (λ w. rules.redeemed w.cuts + w.wanted ≡ amount) }
{
    let mut walk = Walk {
        cuts: Cuts::new(alloc),
        wanted: amount,
        troves: count,
        first_net: None,
    };
    let mut next = order.last();
    while let Some(account) = next {
        if walk.wanted == 0 {
            return Ok(walk);
        }
        if !walk.pass(price, troves, account)? {
            return Ok(walk);
        }
        next = order.before(account);
    }
    Ok(walk)
}
