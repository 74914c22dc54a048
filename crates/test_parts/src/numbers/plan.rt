//! What a plan of borrowing comes to.

use liq_borrow::Plan;
use liq_types::Refusal;

/// Collateral, debt, fee, and the base rate with its minute that a plan leaves; or its refusal.
pub type Told = Result<[u64; 5], Refusal>;

pub fn told(plan: Result<Plan, Refusal>) -> Told {
    match plan {
        Ok(plan) => Ok([
            plan.coll,
            plan.debt,
            plan.fee,
            plan.rate.base,
            plan.rate.minute,
        ]),
        Err(refusal) => Err(refusal),
    }
}
