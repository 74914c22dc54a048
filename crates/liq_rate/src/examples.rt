//! Worked examples of the base rate. The functions here do nothing; each is the place where the
//! facts of its contract are proved.

ghost use Rattle.std.specs.Prelude.{◌≡◌};
ghost use Rattle.liq_rate.specs.Rate.{decayed, risen};

/// What a minute and two leave of a base rate of one.
pub fn decay_example()
    ensures one { decayed 1000000000000000000 0 1 ≡ 999037758833783000 }
    ensures two { decayed 1000000000000000000 0 2 ≡ 998076443575627963 }
{}

/// Redeeming a tenth of the supply raises the rate by a twentieth, and no redemption takes it past
/// one.
pub fn rise_example()
    ensures tenth { risen 0 100 1000 ≡ 50000000000000000 }
    ensures cap { risen 900000000000000000 1000 1000 ≡ 1000000000000000000 }
{}
