//! What others follow of liquidations: told one after the other, while the state stays.

ghost use Rattle.std.specs.Prelude.{◌≡◌, ◌<◌};
ghost use Rattle.liq_liquidation.specs.Applied.{words_left};
ghost use Rattle.liq_core_lowest.specs.Victims.{IsNext, course_after, course_words, offset_told};

use liq_liquidation::One;
use liq_num::mul_div;
use liq_stability::{PoolWords, offset_words};
use liq_types::amounts::ONE;
use liq_types::{ListChange, PoolEvent};

/// From what is told what liquidations do to the Stability Pool and to the ordered list.
#[derive(Clone, Copy)]
pub struct Course {
    /// The words of the Stability Pool.
    pub words: PoolWords,
    /// The stakes of all troves.
    pub stakes: u64,
    /// The collateral of all troves, in gwei.
    pub coll: u64,
    /// The debt that each unit of stake was given, over 10^18.
    pub sum_debt: u128,
}

impl Course {
    /// Goes on behind the liquidation of a trove with this stake. Answers what the Stability Pool
    /// takes over, if anything.
    pub fn pass(&mut self, stake: u64, one: &One) -> Option<PoolEvent>
        requires next { IsNext self.old one.now }
        requires others { stake < self.old.stakes }
        ensures event { result ≡ offset_told self.old.words one.now }
        ensures after { self.new ≡ course_after self.old stake one.now }
    {
        let event = self.offset(one);
        self.stakes -= stake;
        self.coll -= one.gas + one.offset_coll + one.surplus;
        let debt = u128::from(one.spread_debt);
        self.sum_debt += mul_div(debt, u128::from(ONE), u128::from(self.stakes));
        event
    }

    /// The Stability Pool takes over its part, if any.
    fn offset(&mut self, one: &One) -> Option<PoolEvent>
        requires { IsNext self.old one.now }
        ensures event { result ≡ offset_told self.old.words one.now }
        ensures after { self.new ≡ record self.old { words = words_left self.old.words one.now } }
    {
        let (debt, coll, total) = (one.offset_debt, one.offset_coll, self.words.total);
        if debt == 0 {
            return None;
        }
        let before = self.words.scale;
        let (words, _) = offset_words(&self.words, debt, coll);
        self.words = words;
        let rise = if debt == total {
            0
        } else {
            words.scale - before
        };
        Some(PoolEvent::Offset {
            debt,
            coll,
            total,
            rise,
        })
    }

    /// The words from which later keys are made.
    pub fn list_words(&self) -> ListChange
        ensures { result ≡ course_words self.now }
    {
        ListChange::Words {
            snap_stakes: self.stakes,
            snap_coll: self.coll,
            sum_debt: self.sum_debt,
        }
    }
}
