//! Who looks for hints: a window, and the number of the version that was seen last.

ghost use Rattle.std.specs.Prelude.{◌≤◌};
ghost use Rattle.liq_views.specs.Windows.{number_or};

use crate::pane::Pane;
use crate::window::Window;

mod hinter;
mod looks;

/// Looks for hints at a window, and keeps the number of the version that it saw last.
#[derive(Drop)]
pub struct Finder<V: Window + Drop = Pane> {
    pub(crate) window: V,
    /// The number of the version that was seen last; 0 before any.
    last: u64,
    ghost reached: { last ≤ number_or (V.shown window) last },
}
