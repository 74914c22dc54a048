//! The cuts of a redemption, in order.

ghost use Rattle.std.specs.Prelude.{◌≡◌, ◌<◌, ◌^◌};
ghost use Rattle.liq_redemption.specs.Redemption as rules;

use crate::cut::Cut;
use liq_types::Seq;

/// The cuts of a redemption, in the order in which the troves are visited.
pub type Cuts = Seq<Cut>;

/// The collateral that is drawn by all of them, in gwei.
pub(crate) fn drawn_by(cuts: &Cuts) -> u64
    requires { rules.drawn cuts.now < 2 ^ 64 }
    ensures { result ≡ rules.drawn cuts.now }
{
    cuts.as_slice().iter().map(|cut| cut.draw).sum()
}
