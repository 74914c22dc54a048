//! How a pane is made, and how it looks.

ghost use Rattle.std.specs.Prelude.{◌≡◌, ◌≤◌, ◌+◌, min, IfOk, OnOk, OnErr};
ghost use Rattle.liq_list_version.specs.Versions.{answer_of};
ghost use Rattle.liq_views.specs.Batches.{StartsWith, last_from, version_after};
ghost use Rattle.liq_views.specs.Panes.{seen_by};
ghost use Rattle.liq_views.specs.Windows.{count_most};

use super::Pane;
use crate::rule::{Published, Sight};
use crate::shelf::Shelf;
use crate::window::Shut;
use left_right::reader::Reader;
use liq_list_version::Ask;
use liq_types::Hint;

impl Pane {
    /// A pane without a reader is shut at each look.
    pub(crate) fn over(reader: Option<Reader<Shelf, Sight, Published>>) -> Pane
        ensures reader { result.reader ≡ reader }
        ensures shut { result.shut ≡ 0 }
    {
        Pane { reader, shut: 0 }
    }

    /// Asks the version that is shown. What is then seen begins with all batches that were seen
    /// before, and makes that version. `Shut` leaves what was seen, and is counted.
    pub fn look(&mut self, ask: &Ask) -> Result<Hint, Shut>
        ensures begins { StartsWith (seen_by self.new) (seen_by self.old) }
        ensures later { last_from 0 (seen_by self.old) ≤ last_from 0 (seen_by self.new) }
        ensures hint { IfOk result (λ hint. hint ≡ answer_of (version_after (seen_by self.new))
            ask.now) }
        ensures stays { OnErr result (seen_by self.new ≡ seen_by self.old) }
        ensures open { OnOk result (self.new.shut ≡ self.old.shut) }
        ensures shut { OnErr result (self.new.shut ≡ min (self.old.shut + 1) count_most) }
    {
        let reading = self.enter()?;
        let hint = reading.get().version.answer(ask);
        self.reader = Some(reading.leave());
        Ok(hint)
    }
}
