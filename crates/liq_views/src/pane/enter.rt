//! How a pane comes to what is shown.

ghost use Rattle.std.specs.Prelude.{◌≡◌, ◌+◌, min, IfOk, OnOk, OnErr};
ghost use Rattle.left_right.specs.Sides.{view};
ghost use Rattle.liq_views.specs.Panes.{seen_by};
ghost use Rattle.liq_views.specs.Rules.{Looks};
ghost use Rattle.liq_views.specs.Windows.{count_most};

use super::Pane;
use crate::rule::{Published, Sees, Sight};
use crate::shelf::Shelf;
use crate::window::Shut;
use left_right::reader::Reading;

impl Pane {
    /// The pane's reader at what is shown. Whoever takes it gives the reader back when it has left.
    /// `Shut` leaves what was seen, and is counted.
    pub(super) fn enter(&mut self) -> Result<Reading<Shelf, Sight, Published>, Shut>
        ensures looks { IfOk result (λ reading. Looks (seen_by self.old) reading.part.value
            (view reading.place).seen) }
        ensures open { OnOk result (self.new.shut ≡ self.old.shut) }
        ensures stays { OnErr result (seen_by self.new ≡ seen_by self.old) }
        ensures shut { OnErr result (self.new.shut ≡ min (self.old.shut + 1) count_most) }
    {
        let Some(reader) = self.reader.take() else {
            self.shut = self.shut.saturating_add(1);
            return Err(Shut);
        };
        match reader.enter_as::<Sees>() {
            Ok(reading) => Ok(reading),
            Err(reader) => {
                self.reader = Some(reader);
                self.shut = self.shut.saturating_add(1);
                Err(Shut)
            }
        }
    }
}
