//! Why a redemption cannot be planned.

ghost use Rattle.std.specs.Prelude.{◌≡◌};

use liq_types::{NoMemory, Refusal};

/// Why a redemption cannot be planned. Nothing has changed.
#[derive(Drop)]
pub enum RedeemFault {
    /// It is refused.
    No(Refusal),
    /// There is no memory for the cuts.
    NoMemory,
}

impl From<Refusal> for RedeemFault {
    ghost use Rattle.liq_redemption.specs.declared.fault.RedeemFault.{RedeemFault};

    ghost from_gives = { λ refusal fault. fault ≡ RedeemFault.No refusal };

    fn from(refusal: Refusal) -> RedeemFault {
        RedeemFault::No(refusal)
    }
}

impl From<NoMemory> for RedeemFault {
    ghost use Rattle.liq_redemption.specs.declared.fault.RedeemFault.{RedeemFault};

    ghost from_gives = { λ _ fault. fault ≡ RedeemFault.NoMemory };

    fn from(_: NoMemory) -> RedeemFault {
        RedeemFault::NoMemory
    }
}
