//! Closing a trove: its debt beside the reserve is repaid, and its collateral comes back.

ghost use Rattle.std.specs.Prelude.{◌≡◌};
ghost use Rattle.liq_borrow.specs.Borrowing.{close_plan};
ghost use Rattle.liq_borrow.specs.Given.{IsMarket};

use crate::checks;
use crate::terms::is_recovery;
use liq_types::amounts::RESERVE;
use liq_types::{Market, Refusal, Wallet};

/// What closing an account's trove, of which the entire collateral (gwei) and debt (micro-LUSD) are
/// given, repays (micro-LUSD) and returns (gwei). Refused, in this order: `NoTrove`; `LastTrove`;
/// `RecoveryForbids`; `ShortTokens`, where the wallet has less than the debt beside the reserve;
/// `SystemRatioLow`.
pub fn plan_close(
    market: &Market,
    wallet: &Wallet,
    entire: Option<(u64, u64)>,
    account: u32,
) -> Result<(u64, u64), Refusal>
    requires { IsMarket market.now }
    ensures { result ≡ close_plan market.now wallet.now entire account }
{
    let Some(had) = entire else {
        return Err(Refusal::NoTrove { account });
    };
    checks::not_last(market.troves)?;
    checks::no_recovery(true, market.total_coll, market.total_debt, market.price)?;
    let repaid = had.1.saturating_sub(RESERVE);
    checks::tokens(repaid, wallet.lusd)?;
    let total_coll = market.total_coll.saturating_sub(had.0);
    let total_debt = market.total_debt.saturating_sub(had.1);
    checks::totals(
        !is_recovery(market),
        u128::from(total_coll),
        u128::from(total_debt),
        market.price,
    )?;
    Ok((repaid, had.0))
}
