//! Worked examples, computed. The functions here do nothing: each is the place where the facts of
//! its contract are proved.

ghost use Rattle.std.specs.Prelude.{◌≡◌, [], ◌∷◌, take};
ghost use Rattle.liq_types.specs.declared.amounts.TheConstants.{ONE};
ghost use Rattle.liq_types.specs.declared.requests.Call.TheVariants.{Fund, Open, Adjust, Provide, Advance, Send, Claim};
ghost use Rattle.liq_sessions.specs.Generated.{drawn, no_hint, preamble_from};

/// The first of the preamble's calls and the last one, and the first drawn calls of the seeds 0, 7
/// and 2^64 - 1.
pub fn generated_example()
    ensures first { take 3 (preamble_from 0) ≡ Fund 1 1000000000000
        ∷ Open 1 100000000000 20000000000 ONE no_hint ∷ Provide 1 10000000000 ∷ [] }
    ensures last { preamble_from 149 ≡ Provide 50 10000000000 ∷ [] }
    ensures zero { drawn 0 3 ≡ Send 25 38 1299921938 ∷ Adjust 26 0 0 0 1204436891 0 no_hint
        ∷ Provide 26 1036791265 ∷ [] }
    ensures seven { drawn 7 3 ≡ Claim 32 ∷ Advance 420 ∷ Provide 15 2107371740 ∷ [] }
    ensures greatest { drawn 18446744073709551615 3 ≡ Provide 44 1207502678
        ∷ Open 15 100000000000 3334033987 ONE no_hint ∷ Adjust 48 270284440 0 0 0 0 no_hint ∷ [] }
{}
