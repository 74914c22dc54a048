//! What a finder looks through: one version after the other stands behind it, never an older one.

ghost use Rattle.std.specs.Prelude.{◌≡◌, ℕ, Option, Some, IfOk, IfSome, OnOk, OnErr};
ghost use Rattle.liq_list_version.specs.Versions.{Numbered, answer_of};
ghost use Rattle.liq_views.specs.Windows.{GoesOn, Rose};

use liq_list_version::{Ask, Version};
use liq_types::Hint;

/// The window is shut: nothing was seen.
#[derive(Clone, Copy)]
pub struct Shut;

/// Shows a version of the list at each look, and never one that is before that of an earlier look.
pub trait Window {
    /// The version last shown, where that is told.
    ghost shown: { Self → Option Numbered };

    /// How many looks were shut, as far as a count of 64 bits goes.
    ghost shut: { Self → ℕ };

    /// How what was shown before a look leads to what is shown after it.
    ghost leads: { Self → Self → Type 0 };

    /// Asks the version that is then shown. Its number isn't below that of the one shown before.
    /// `Shut` comes only where the count of shut looks rose in this call, and leaves what was last
    /// shown.
    fn look(&mut self, ask: &Ask) -> Result<Hint, Shut>
        ensures told { IfOk result (λ hint. IfSome (shown self.new) (λ v. hint
            ≡ answer_of v ask.now)) }
        ensures later { GoesOn (shown self.old) (shown self.new) }
        ensures leads { leads self.old self.new }
        ensures stays { OnErr result (shown self.new ≡ shown self.old) }
        ensures open { OnOk result (shut self.new ≡ shut self.old) }
        ensures cause { OnErr result (Rose (shut self.old) (shut self.new)) };

    /// The number of the version that is then shown, by the terms of [`Window::look`]. Nobody's
    /// neighbours are looked up.
    fn number(&mut self) -> Result<u64, Shut>
        ensures told { IfOk result (λ number. IfSome (shown self.new) (λ v. number ≡ v.number)) }
        ensures later { GoesOn (shown self.old) (shown self.new) }
        ensures leads { leads self.old self.new }
        ensures stays { OnErr result (shown self.new ≡ shown self.old) }
        ensures open { OnOk result (shut self.new ≡ shut self.old) }
        ensures cause { OnErr result (Rose (shut self.old) (shut self.new)) };
}

/// A window at which one version stands. It is never shut.
#[derive(Drop)]
pub struct Shown {
    version: Version,
}

impl Shown {
    pub fn new(version: Version) -> Shown
        ensures { result.version ≡ version }
    {
        Shown { version }
    }
}

impl Window for Shown {
    ghost shown = { λ s. Some s.version };

    ghost shut = { λ _. 0 };

    ghost leads = { λ s t. t.version ≡ s.version };

    fn look(&mut self, ask: &Ask) -> Result<Hint, Shut> {
        Ok(self.version.answer(ask))
    }

    fn number(&mut self) -> Result<u64, Shut> {
        Ok(self.version.number())
    }
}
