//! Worked examples, run by hand. The functions here do nothing; each is the place where the facts
//! of its contract are proved.

ghost use Rattle.std.specs.Prelude.{◌≡◌};
ghost use Rattle.liq_types.specs.Allowance.{balance_allowance, gain_allowance};
ghost use Rattle.liq_types.specs.PlainLedger.{exact_share};
ghost use Rattle.liq_audit.specs.Enclosure.{enclosed};
ghost use Rattle.liq_audit.specs.Examples.{shared_again};

/// Two depositors share two offsets, and the first puts in more between: the enclosures of both,
/// and by how much what the protocol gives them may fall short.
pub fn shared_again_example()
    ensures first { enclosed 1 shared_again ≡ record {
      balance_lo = 92;
      balance_hi = 94;
      gain_lo = 36;
      gain_hi = 39;
    } }
    ensures first_balance { balance_allowance 1 shared_again ≡ 3 }
    ensures first_gain { gain_allowance 1 shared_again ≡ 31 }
    ensures second { enclosed 2 shared_again ≡ record {
      balance_lo = 106;
      balance_hi = 108;
      gain_lo = 61;
      gain_hi = 64;
    } }
    ensures second_balance { balance_allowance 2 shared_again ≡ 2 }
    ensures second_gain { gain_allowance 2 shared_again ≡ 16 }
    ensures exact { exact_share 1 shared_again ≡ record {
      den = 75000;
      bal = 7000000;
      gain = 2800000;
    } }
{}
