//! What holds of every market. Each function is the place where the facts of its contract are
//! proved, and but for the last they do nothing.

ghost use Rattle.std.specs.Prelude.{◌≡◌, [], IfOk};
ghost use Rattle.liq_types.specs.Soundness.{IsSoundImage};
ghost use Rattle.liq_core.specs.Core.{SameContent, StandsFor, state_of};

use crate::load_fault::LoadFault;
use crate::market::Market;
use liq_core::laws;
use liq_types::NoMemory;
use std::alloc::Global;

/// Every market stands for the state that begins with its image and has its records. So what its
/// calls say of each state for which it stands is said of one at least.
pub fn markets_stand(market: &Market)
    ensures { StandsFor market.now.core (state_of market.now.core) }
{
    // odd: law called
    laws::protocols_stand(market.protocol());
}

/// Every market is sound: its image meets all rules of an image, beside the records, and its tables
/// are in form.
pub fn markets_are_sound(market: &Market)
    ensures { IsSoundImage market.now.core.image market.now.core.records }
{
    // odd: law called
    laws::protocols_are_sound(market.protocol());
}

/// What a market saves is loaded as the same market, which has touched nobody yet. Memory alone may
/// be missing.
pub fn saves_are_loaded(alloc: Global, market: &Market) -> Result<Market, NoMemory>
    ensures { IfOk result (λ again.
        SameContent market.now.core again.core × (again.touched ≡ [])) }
{
    // odd: law called
    laws::protocols_are_sound(market.protocol());
    laws::protocols_stand(market.protocol());
    laws::lists_stand(market.protocol());
    let bytes = market.save(alloc)?;
    match Market::load(alloc, &bytes) {
        Ok(again) => {
            laws::lists_stand(again.protocol());
            Ok(again)
        }
        Err(LoadFault::NoMemory) => Err(NoMemory),
        Err(LoadFault::Damaged) => unreachable!(),
        Err(LoadFault::Unsound { .. }) => unreachable!(),
    }
}
