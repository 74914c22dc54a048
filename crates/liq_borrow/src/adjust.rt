//! Changing a trove: collateral in or out, and LUSD borrowed or repaid, in one plan.

ghost use Rattle.std.specs.Prelude.{◌≡◌, ◌≤◌, ◌+◌};
ghost use Rattle.liq_types.specs.Rules.{first_refusal, outcome};
ghost use Rattle.liq_borrow.specs.Adjusting.{asked_rules, held_rules, left_with, ratio_rules};
ghost use Rattle.liq_borrow.specs.Borrowing.{adjust_plan, or_nothing};
ghost use Rattle.liq_borrow.specs.Given.{IsMarket};

use crate::change::{Change, Plan};
use crate::checks;
use crate::terms::{borrowing, is_recovery, least_bound, least_ratio};
use liq_types::amounts::{LIM, RESERVE};
use liq_types::{Market, Refusal, Wallet};

/// What a change would make of an account's trove, of which the entire collateral (gwei) and debt
/// (micro-LUSD) are given, the rate of the borrowing's fee being bound. Refused, in this order:
/// `NoTrove`; `FeeBound`, where it borrows; `BothWays`; `NoChange`; `RecoveryForbids`, where
/// collateral goes out; `FeeOver`; `ShortCollateral` of the wallet, then of the trove;
/// `ShortTokens`; `NetDebtLow`, where it repays; `AmountLimit` of all debt; `RatioLow`, in Recovery
/// Mode only where it borrows; `RatioFalls`, where it borrows in Recovery Mode; `SystemRatioLow`,
/// in Normal Mode.
pub fn plan_adjust(
    market: &Market,
    wallet: &Wallet,
    entire: Option<(u64, u64)>,
    account: u32,
    change: &Change,
    bound: u64,
) -> Result<Plan, Refusal>
    requires market { IsMarket market.now }
    // What was brought in is within the limit, and so are the trove's part of it and the wallet's
    // together.
    requires coll { (or_nothing entire).0 + wallet.now.coll ≤ LIM }
    requires debt { (or_nothing entire).1 ≤ market.now.total_debt }
    ensures { result ≡ adjust_plan market.now wallet.now entire account change.now bound }
{
    let Some(had) = entire else {
        return Err(Refusal::NoTrove { account });
    };
    let (fee, rate) = borrowing(market, change.borrow);
    check_asked(market, change, fee, bound)?;
    let (coll, debt) = left_of(market, wallet, had, change, fee)?;
    check_ratios(market, change, fee, had, (coll, debt))?;
    Ok(Plan {
        coll,
        debt,
        fee,
        rate,
    })
}

/// What is refused of a change with this fee by itself, whatever the trove has.
fn check_asked(market: &Market, change: &Change, fee: u64, bound: u64) -> Result<(), Refusal>
    requires { IsMarket market.now }
    ensures { result ≡ outcome (first_refusal (asked_rules market.now change.now fee bound)) tt }
{
    checks::bound(change.borrow > 0, bound, least_bound(market))?;
    checks::one_way(change.coll_in, change.coll_out)?;
    checks::one_way(change.borrow, change.repay)?;
    checks::some_change(change)?;
    checks::no_recovery(
        change.coll_out > 0,
        market.total_coll,
        market.total_debt,
        market.price,
    )?;
    checks::fee(fee, change.borrow, bound)?;
    Ok(())
}

/// The collateral and the debt that a change with this fee leaves a trove that had so much, or what
/// is refused since the wallet or the trove has too little, or all troves too much.
fn left_of(
    market: &Market,
    wallet: &Wallet,
    had: (u64, u64),
    change: &Change,
    fee: u64,
) -> Result<(u64, u64), Refusal>
    requires coll { had.0 + wallet.now.coll ≤ LIM }
    requires debt { had.1 ≤ market.now.total_debt }
    ensures { result ≡ outcome (first_refusal (held_rules market.now wallet.now had change.now fee))
        (left_with had change.now fee) }
{
    checks::collateral(change.coll_in, wallet.coll)?;
    checks::collateral(change.coll_out, had.0)?;
    checks::tokens(change.repay, wallet.lusd)?;
    let net = had.1.saturating_sub(RESERVE).saturating_sub(change.repay);
    checks::net_debt(change.repay > 0, u128::from(net))?;
    let sum = u128::from(market.total_debt) + u128::from(change.borrow) + u128::from(fee);
    checks::supply(sum, market.limit)?;
    let coll = had.0 + change.coll_in - change.coll_out;
    let debt = (had.1 + change.borrow + fee).saturating_sub(change.repay);
    Ok((coll, debt))
}

/// What is refused by the ratios of a trove that had so much and of all troves, after a change with
/// this fee.
fn check_ratios(
    market: &Market,
    change: &Change,
    fee: u64,
    had: (u64, u64),
    left: (u64, u64),
) -> Result<(), Refusal>
    requires { IsMarket market.now }
    ensures { result ≡ outcome (first_refusal (ratio_rules market.now change.now fee had left)) tt }
{
    let recovery = is_recovery(market);
    let borrows = change.borrow > 0;
    checks::ratio(
        !recovery || borrows,
        left.0,
        left.1,
        market.price,
        least_ratio(market),
    )?;
    checks::no_fall(recovery && borrows, left, had)?;
    let total_coll = u128::from(market.total_coll) + u128::from(change.coll_in);
    let total_coll = total_coll.saturating_sub(u128::from(change.coll_out));
    let total_debt = u128::from(market.total_debt) + u128::from(change.borrow) + u128::from(fee);
    let total_debt = total_debt.saturating_sub(u128::from(change.repay));
    checks::totals(!recovery, total_coll, total_debt, market.price)?;
    Ok(())
}
