//! The output shows the entries of a history.

use crate::output::ShownEntry;
use liq_types::{Entry, Reply};

impl ShownEntry for Entry {
    ghost entry = { λ e. e };

    fn session(&self) -> u8 {
        self.session
    }

    fn index(&self) -> u32 {
        self.index
    }

    fn reply(&self) -> Reply {
        self.reply
    }
}
