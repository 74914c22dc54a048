//! Laws of the 96 bytes, each the contract of a function without a body.
ghost use Rattle.std.specs.Prelude.{◌≡◌, List, ℕ};
ghost use Rattle.liq_types.specs.declared.requests.Command.{Command};
ghost use Rattle.liq_wire.specs.Fields.{HasHints, Spells96};

/// The bytes tell commands apart, as long as no hint is the greatest word, which stands for none.
pub fn one_command()
    ensures { (bytes : List ℕ) (c d : Command) → Spells96 bytes c → Spells96 bytes d
        → HasHints c.call → HasHints d.call → c ≡ d }
{}
