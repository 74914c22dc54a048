//! Opening a trove: its debt is what is borrowed, the fee and the reserve.

ghost use Rattle.std.specs.Prelude.{◌≡◌};
ghost use Rattle.liq_borrow.specs.Borrowing.{open_plan};
ghost use Rattle.liq_borrow.specs.Given.{IsMarket};

use crate::change::Plan;
use crate::checks;
use crate::terms::{borrowing, is_recovery, least_bound, least_ratio};
use liq_types::amounts::RESERVE;
use liq_types::{Market, Refusal, Wallet};

/// What opening a trove with so much collateral (gwei) and borrowing (micro-LUSD) would make of it,
/// the fee's rate being bound. Refused, in this order: `TroveExists`; `FeeBound`; `FeeOver`;
/// `NetDebtLow`, where what is borrowed and the fee are too low; `AmountLimit` of all debt;
/// `ShortCollateral`; `RatioLow`; `SystemRatioLow`, in Normal Mode.
pub fn plan_open(
    market: &Market,
    wallet: &Wallet,
    exists: bool,
    account: u32,
    coll: u64,
    borrow: u64,
    bound: u64,
) -> Result<Plan, Refusal>
    requires { IsMarket market.now }
    ensures { result ≡ open_plan market.now wallet.now exists account coll borrow bound }
{
    if exists {
        return Err(Refusal::TroveExists { account });
    }
    let (fee, rate) = borrowing(market, borrow);
    let net = u128::from(borrow) + u128::from(fee);
    let sum = u128::from(market.total_debt) + net + u128::from(RESERVE);
    checks::bound(true, bound, least_bound(market))?;
    checks::fee(fee, borrow, bound)?;
    checks::net_debt(true, net)?;
    checks::supply(sum, market.limit)?;
    checks::collateral(coll, wallet.coll)?;
    let debt = borrow + fee + RESERVE;
    checks::ratio(true, coll, debt, market.price, least_ratio(market))?;
    let total_coll = u128::from(market.total_coll) + u128::from(coll);
    checks::totals(!is_recovery(market), total_coll, sum, market.price)?;
    Ok(Plan {
        coll,
        debt,
        fee,
        rate,
    })
}
