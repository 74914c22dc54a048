//! How a pane tells the number alone.

ghost use Rattle.std.specs.Prelude.{◌≡◌, ◌≤◌, ◌+◌, min, IfOk, OnOk, OnErr};
ghost use Rattle.liq_views.specs.Batches.{StartsWith, last_from, version_after};
ghost use Rattle.liq_views.specs.Panes.{seen_by};
ghost use Rattle.liq_views.specs.Windows.{count_most};

use super::Pane;
use crate::window::Shut;

impl Pane {
    /// The number of the version that is shown, by the same terms as [`Pane::look`].
    pub fn number(&mut self) -> Result<u64, Shut>
        ensures begins { StartsWith (seen_by self.new) (seen_by self.old) }
        ensures later { last_from 0 (seen_by self.old) ≤ last_from 0 (seen_by self.new) }
        ensures number { IfOk result (λ number. number
            ≡ (version_after (seen_by self.new)).number) }
        ensures stays { OnErr result (seen_by self.new ≡ seen_by self.old) }
        ensures open { OnOk result (self.new.shut ≡ self.old.shut) }
        ensures shut { OnErr result (self.new.shut ≡ min (self.old.shut + 1) count_most) }
    {
        let reading = self.enter()?;
        let number = reading.get().version.number();
        self.reader = Some(reading.leave());
        Ok(number)
    }
}
