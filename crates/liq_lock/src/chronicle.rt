//! What the lock asks of the value that it guards.
ghost use Rattle.std.specs.Prelude.{◌≡◌, ℕ, List, length};

/// A value with a history. Each item of the history carries the number of the seat that made it.
pub trait Chronicle {
    type Item;

    // The whole history, the oldest item first.
    ghost history: { Self → List Self.Item };

    // The number of the seat that made an item.
    ghost maker: { Self.Item → ℕ };

    /// How many items the history has.
    fn entries(&self) -> u64
        ensures { result ≡ length (history self.now) };
}
