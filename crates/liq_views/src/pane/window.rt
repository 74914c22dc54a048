//! A pane as a window: what is shown is what the batches make that it has seen.

ghost use Rattle.std.specs.Prelude.{Some};
ghost use Rattle.liq_views.specs.Batches.{StartsWith, version_after};
ghost use Rattle.liq_views.specs.Panes.{seen_by};

use super::Pane;
use crate::window::{Shut, Window};
use liq_list_version::Ask;
use liq_types::Hint;

impl Window for Pane {
    ghost shown = { λ p. Some (version_after (seen_by p)) };

    ghost shut = { λ p. p.shut };

    ghost leads = { λ p q. StartsWith (seen_by q) (seen_by p) };

    fn look(&mut self, ask: &Ask) -> Result<Hint, Shut> {
        self.look(ask)
    }

    fn number(&mut self) -> Result<u64, Shut> {
        self.number()
    }
}
