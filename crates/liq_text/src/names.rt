//! The sixteen verbs by their names, which are told apart by their whole bytes.

ghost use Rattle.std.specs.Prelude.{◌≡◌};
ghost use Rattle.liq_text.specs.Names.{named};

#[derive(Clone, Copy)]
pub(crate) enum Verb {
    Price,
    Advance,
    Fund,
    Take,
    Send,
    Open,
    Adjust,
    Close,
    Provide,
    Withdraw,
    GainToTrove,
    Liquidate,
    LiquidateLowest,
    Redeem,
    Claim,
    Rotate,
}

/// The verb that each name stands for.
pub(crate) const VERBS: [(&[u8], Verb); 16] = [
    (b"price", Verb::Price),
    (b"advance", Verb::Advance),
    (b"fund", Verb::Fund),
    (b"take", Verb::Take),
    (b"send", Verb::Send),
    (b"open", Verb::Open),
    (b"adjust", Verb::Adjust),
    (b"close", Verb::Close),
    (b"provide", Verb::Provide),
    (b"withdraw", Verb::Withdraw),
    (b"gain_to_trove", Verb::GainToTrove),
    (b"liquidate", Verb::Liquidate),
    (b"liquidate_lowest", Verb::LiquidateLowest),
    (b"redeem", Verb::Redeem),
    (b"claim", Verb::Claim),
    (b"rotate", Verb::Rotate),
];

/// What a word stands for in a table of names.
pub(crate) fn meaning<A: Copy>(rows: &[(&'static [u8], A)], word: &[u8]) -> Option<A>
    ensures { result ≡ named (λ row. row.0.now) (λ row. row.1) rows.now word.now }
{
    for row in rows {
        if word == row.0 {
            return Some(row.1);
        }
    }
    None
}
