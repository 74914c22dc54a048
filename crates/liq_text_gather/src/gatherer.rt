//! What gathers lines.

ghost use Rattle.std.specs.Prelude.{◌≤◌, ℕ, List, length};
ghost use Rattle.liq_types.specs.declared.amounts.TheConstants.{LINE_BYTES};
ghost use Rattle.liq_text_gather.specs.Progress.{Keeps};

use liq_text_lines::Stop;

/// Gathers what lines say.
pub trait Gatherer {
    /// What a line says.
    type Item;

    /// The line says this.
    ghost says: { List ℕ → Self.Item → Type 0 };

    /// This was gathered, in this order.
    ghost holds: { Self → List Self.Item → Type 0 };

    /// Puts what the line of this number says behind what was gathered. [`Stop::BadLine`] comes
    /// exactly where it says nothing.
    fn keep(&mut self, line: &[u8], number: u64) -> Result<(), Stop>
        ensures { Keeps says holds line.now number self.old self.new result };

    // A line that says something is no longer than a line may be.
    ghost short: { (line : List ℕ) (item : Self.Item) → says line item → length line ≤ LINE_BYTES };
}
