//! The words behind a verb.

ghost use Rattle.std.specs.Prelude.{◌≡◌};
ghost use Rattle.liq_text.specs.Reading.{arguments_of};
ghost use Rattle.liq_text.specs.Pieces.{pieces_left, finished, unless};

use crate::names::Verb;
use crate::pieces::Pieces;
use liq_types::Call;

/// The call that a verb makes of the words behind it: one that counts only where the reader is then
/// done.
pub(crate) fn arguments(verb: Verb, words: &mut Pieces<'_>) -> Call
    ensures { finished result words.new.has_failed (pieces_left words.new)
        ≡ unless words.old.has_failed (arguments_of verb (pieces_left words.old)) }
{
    match verb {
        Verb::Price => Call::Price(words.number()),
        Verb::Advance => Call::Advance(words.number()),
        Verb::Fund => Call::Fund(words.account(), words.number()),
        Verb::Take => Call::Take(words.account(), words.number()),
        Verb::Send => Call::Send(words.account(), words.account(), words.number()),
        Verb::Open => Call::Open(
            words.account(),
            words.number(),
            words.number(),
            words.number(),
            words.hints(),
        ),
        Verb::Adjust => Call::Adjust(
            words.account(),
            words.number(),
            words.number(),
            words.number(),
            words.number(),
            words.number(),
            words.hints(),
        ),
        Verb::Close => Call::Close(words.account()),
        Verb::Provide => Call::Provide(words.account(), words.number()),
        Verb::Withdraw => Call::Withdraw(words.account(), words.number()),
        Verb::GainToTrove => Call::GainToTrove(words.account(), words.hints()),
        Verb::Liquidate => Call::Liquidate(words.account(), words.account()),
        Verb::LiquidateLowest => Call::LiquidateLowest(words.account(), words.number()),
        Verb::Redeem => Call::Redeem(
            words.account(),
            words.number(),
            words.number(),
            words.hints(),
        ),
        Verb::Claim => Call::Claim(words.account()),
        Verb::Rotate => Call::Rotate,
    }
}
