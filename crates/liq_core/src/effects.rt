//! What planned commands do. Of an effect every test is passed, and it has what planning worked
//! out.

ghost use Rattle.std.specs.Prelude.{◌≡◌};
ghost use Rattle.liq_core.specs.Effects.{victims_in};

use liq_borrow::{Change, Plan};
use liq_liquidation::Victim;
use liq_redemption::RedeemPlan;
use liq_types::HintWords;

/// What a planned command does to the protocol that planned it.
#[derive(Drop)]
pub(crate) enum Effect {
    /// It is counted once the move is made.
    Move(Move),
    /// These troves are liquidated.
    Liquidate { liquidator: u32, victims: Victims },
    /// The next generation of the journal begins.
    Rotate,
}

/// What a command does that liquidates no trove and is no rotation. Collateral is in gwei, LUSD in
/// micro-LUSD.
#[derive(Drop)]
pub(crate) enum Move {
    /// The price, in micro-LUSD per ether.
    Price(u64),
    /// Minutes that pass.
    Advance(u64),
    Fund {
        account: u32,
        coll: u64,
    },
    Take {
        account: u32,
        coll: u64,
    },
    Send {
        from: u32,
        to: u32,
        lusd: u64,
    },
    /// The plan is what the trove then has.
    Open {
        account: u32,
        borrow: u64,
        plan: Plan,
        words: HintWords,
    },
    /// The plan is what the trove then has.
    Adjust {
        account: u32,
        change: Change,
        plan: Plan,
        words: HintWords,
    },
    Close {
        account: u32,
        repaid: u64,
        coll: u64,
    },
    Provide {
        account: u32,
        lusd: u64,
    },
    /// At most this much LUSD.
    Withdraw {
        account: u32,
        lusd: u64,
    },
    /// The plan is what the trove then has.
    GainToTrove {
        account: u32,
        plan: Plan,
        words: HintWords,
    },
    /// What is taken of each trove, and what it comes to.
    Redeem {
        account: u32,
        plan: RedeemPlan,
        words: HintWords,
    },
    Claim {
        account: u32,
    },
}

/// Troves that are liquidated, in order. A single one takes no memory.
#[derive(Drop)]
pub(crate) enum Victims {
    One([Victim; 1]),
    Many(Vec<Victim>),
}

impl Victims {
    pub(crate) fn as_slice(&self) -> &[Victim]
        ensures { result.now ≡ victims_in self.now }
    {
        match self {
            Victims::One(victim) => victim,
            Victims::Many(victims) => victims,
        }
    }
}
