//! What a redemption would do, or why it is refused.

ghost use Rattle.std.specs.Prelude.{◌≡◌, ◌≤◌, ◌<◌, ◌+◌, ◌*◌, ◌^◌, OnOk, unwrap_or};
ghost use Rattle.liq_types.specs.Rules.{first_refusal, outcome};
ghost use Rattle.liq_order.specs.Listed.{AreDistinct};
ghost use Rattle.liq_redemption.specs.Answers.{Answers};
ghost use Rattle.liq_redemption.specs.Given.{IsMarket, AreEntireWithin};
ghost use Rattle.liq_redemption.specs.Redemption as rules;

use crate::cuts::{Cuts, drawn_by};
use crate::fault::RedeemFault;
use crate::walk::{Walk, along};
use liq_num::{GWEI_PER_ETH, ratio_sides};
use liq_order::Order;
use liq_rate::{Rate, redeem_fee};
use liq_troves::Troves;
use liq_types::amounts::{BOOTSTRAP, FLOOR_RATE, MCR, ONE};
use liq_types::{Market, Refusal, Wallet};
use std::alloc::Global;

/// What a redemption takes of each trove, and what it comes to.
#[derive(Drop)]
pub struct RedeemPlan {
    pub cuts: Cuts,
    /// The LUSD that is redeemed, in micro-LUSD.
    pub redeemed: u64,
    /// The collateral that is drawn for it, in gwei.
    pub drawn: u64,
    /// The fee, in gwei; it is a part of what is drawn.
    pub fee: u64,
    /// The base rate after it.
    pub rate: Rate,
}

/// Plans the redemption of LUSD (micro-LUSD) out of a wallet, along the order from its end, where
/// the fee may be at most the part `bound` of what is drawn, over 10^18. Nothing changes. Refused,
/// in this order: `AmountZero`; `FeeBound`; `Bootstrap`; `SystemUnder`; `ShortTokens`;
/// `NothingRedeemed`; `FeeEatsAll`; `FeeOver`. Memory is taken for the cuts alone, so there may be
/// none only where none of the first five comes.
pub fn plan(
    alloc: Global,
    market: &Market,
    troves: &Troves,
    order: &Order,
    wallet: &Wallet,
    amount: u64,
    bound: u64,
) -> Result<RedeemPlan, RedeemFault>
    requires market { IsMarket market.now wallet.now }
    requires entire { AreEntireWithin troves.now.sums troves.now.table.rows }
    requires distinct { AreDistinct order.now.entries }
    ensures { Answers market.now wallet.now (rules.visited_by market.now.price troves.now.sums
        troves.now.table.rows order.now.entries) amount bound result }
{
    check_asked(market, wallet, amount, bound)?;
    let walk = along(alloc, market.price, market.troves, troves, order, amount)?;
    Ok(come_to(market, walk, amount, bound)?)
}

/// What is refused before any trove is visited. Where nothing is, all debt is worth less than all
/// collateral, which has 64 bits; so is what is asked for.
fn check_asked(market: &Market, wallet: &Wallet, amount: u64, bound: u64) -> Result<(), Refusal>
    requires { IsMarket market.now wallet.now }
    ensures refused { result
        ≡ outcome (first_refusal (rules.asking_rules market.now wallet.now amount bound)) tt }
    ensures some { OnOk result (1 ≤ amount) }
    ensures enough { OnOk result (amount ≤ wallet.now.lusd) }
    ensures worth { OnOk result (amount * GWEI_PER_ETH < 2 ^ 64 * market.now.price) }
{
    if amount == 0 {
        return Err(Refusal::AmountZero);
    }
    if bound > ONE || bound < FLOOR_RATE {
        let least = FLOOR_RATE;
        return Err(Refusal::FeeBound { bound, least });
    }
    if market.minute < BOOTSTRAP {
        return Err(Refusal::Bootstrap {
            minute: market.minute,
            limit: BOOTSTRAP,
        });
    }
    let (left, right) = ratio_sides(market.total_coll, market.total_debt, market.price, MCR);
    if left < right {
        return Err(Refusal::SystemUnder { left, right });
    }
    if wallet.lusd < amount {
        return Err(Refusal::ShortTokens {
            need: amount,
            have: wallet.lusd,
        });
    }
    Ok(())
}

/// What the cuts of a walk come to, of an amount of which at most this was wanted, or why that is
/// refused.
fn come_to(market: &Market, walk: Walk, amount: u64, bound: u64) -> Result<RedeemPlan, Refusal>
    requires base { market.now.base ≤ ONE }
    requires past_fee { market.now.fee_minute ≤ market.now.minute }
    requires part { amount ≤ market.now.total_debt }
    requires wanted { rules.redeemed walk.cuts + walk.wanted ≡ amount }
    requires drawn { rules.drawn walk.cuts < 2 ^ 64 }
    ensures { result ≡ outcome (first_refusal (rules.taking_rules
        (rules.terms_of market.now walk.cuts)
        (unwrap_or walk.first_net 0) amount bound)) (rules.terms_of market.now walk.cuts) }
{
    let redeemed = amount - walk.wanted;
    if redeemed == 0 {
        let net = walk.first_net.unwrap_or(0);
        return Err(Refusal::NothingRedeemed { amount, net });
    }
    let drawn = drawn_by(&walk.cuts);
    let kept = Rate {
        base: market.base,
        minute: market.fee_minute,
    };
    let rate = kept.on_redeem(market.minute, redeemed, market.total_debt);
    let fee = redeem_fee(rate.base, drawn);
    if drawn <= fee {
        return Err(Refusal::FeeEatsAll { fee, drawn });
    }
    let left = u128::from(fee) * u128::from(ONE);
    let right = u128::from(bound) * u128::from(drawn);
    if right < left {
        return Err(Refusal::FeeOver { left, right });
    }
    Ok(RedeemPlan {
        cuts: walk.cuts,
        redeemed,
        drawn,
        fee,
        rate,
    })
}
