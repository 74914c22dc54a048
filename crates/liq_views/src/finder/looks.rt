//! What a finder tells of one look.

ghost use Rattle.std.specs.Prelude.{◌≡◌, ◌≤◌, IfOk, IfSome, IsSome, IfNone, OnOk, OnErr, MatchOption, MatchResult};
ghost use Rattle.liq_list_version.specs.declared.asks.Ask.TheVariants.{At, Own};
ghost use Rattle.liq_list_version.specs.Versions.{answer_of};
ghost use Rattle.liq_views.specs.Windows.{GoesOn, Looked, Rose};

use super::Finder;
use crate::window::{Shut, Window};
use liq_list_version::Ask;
use liq_types::Hint;

impl<V: Window + Drop> Finder<V> {
    /// A finder that has seen no version yet.
    pub fn new(window: V) -> Finder<V>
        ensures window { result.window ≡ window }
        ensures last { result.last ≡ 0 }
    {
        Finder { window, last: 0 }
    }

    /// The neighbours of (key, id) in the version that is shown, `id` itself aside; both are absent
    /// where no other account stands in it. None comes only where the window's count of shut looks
    /// rose in this call.
    ///
    /// Takes no memory, and doesn't wait. The versions that a finder sees never go back.
    pub fn hint(&mut self, key: i128, id: u32) -> Option<Hint>
        ensures hint { MatchOption result
            (Rose (V.shut self.old.window) (V.shut self.new.window))
            (λ hint. IfSome (V.shown self.new.window) (λ v. hint ≡ answer_of v (At key id))) }
        ensures open { IfSome result (λ _. V.shut self.new.window ≡ V.shut self.old.window) }
        ensures stays { IfNone result (V.shown self.new.window ≡ V.shown self.old.window) }
        ensures last { MatchOption result (self.new.last ≡ self.old.last) (λ hint. self.new.last
            ≡ hint.version) }
        ensures later { GoesOn (V.shown self.old.window) (V.shown self.new.window) }
        ensures leads { V.leads self.old.window self.new.window }
        ensures rising { IsSome (V.shown self.old.window) → self.old.last ≤ self.new.last }
    {
        self.look(&Ask::At { key, id }).ok()
    }

    /// The neighbours of an account in the version that is shown; where it doesn't stand there,
    /// those of (0, id). Both are absent where no other account stands in it. None comes only where
    /// the window's count of shut looks rose in this call.
    ///
    /// Takes no memory, and doesn't wait. The versions that a finder sees never go back.
    pub fn own(&mut self, id: u32) -> Option<Hint>
        ensures later { GoesOn (V.shown self.old.window) (V.shown self.new.window) }
        ensures leads { V.leads self.old.window self.new.window }
        ensures rising { IsSome (V.shown self.old.window) → self.old.last ≤ self.new.last }
        ensures hint { MatchOption result
            (Rose (V.shut self.old.window) (V.shut self.new.window))
            (λ hint. IfSome (V.shown self.new.window) (λ v. hint ≡ answer_of v (Own id))) }
        ensures open { IfSome result (λ _. V.shut self.new.window ≡ V.shut self.old.window) }
        ensures stays { IfNone result (V.shown self.new.window ≡ V.shown self.old.window) }
        ensures last { MatchOption result (self.new.last ≡ self.old.last) (λ hint. self.new.last
            ≡ hint.version) }
    {
        self.look(&Ask::Own { account: id }).ok()
    }

    /// The number of the version that is shown; that of the last version that was seen only where
    /// the window's count of shut looks rose in this call.
    ///
    /// Takes no memory, and doesn't wait. The versions that a finder sees never go back.
    pub fn version(&mut self) -> u64
        ensures version { Looked (V.shut self.old.window) (V.shut self.new.window)
            (IfSome (V.shown self.new.window) (λ v. result ≡ v.number))
            ((V.shown self.new.window ≡ V.shown self.old.window) × (result ≡ self.old.last)) }
        ensures last { self.new.last ≡ result }
        ensures later { GoesOn (V.shown self.old.window) (V.shown self.new.window) }
        ensures leads { V.leads self.old.window self.new.window }
        ensures rising { IsSome (V.shown self.old.window) → self.old.last ≤ self.new.last }
    {
        match self.window.number() {
            Ok(number) => {
                self.last = number;
                number
            }
            Err(_) => self.last,
        }
    }

    /// One look, of which the number is kept.
    pub(crate) fn look(&mut self, ask: &Ask) -> Result<Hint, Shut>
        ensures told { IfOk result (λ hint. IfSome (V.shown self.new.window) (λ v. hint
            ≡ answer_of v ask.now)) }
        ensures open { OnOk result (V.shut self.new.window ≡ V.shut self.old.window) }
        ensures cause { OnErr result (Rose (V.shut self.old.window) (V.shut self.new.window)) }
        ensures stays { OnErr result (V.shown self.new.window ≡ V.shown self.old.window) }
        ensures last { MatchResult result (λ hint. self.new.last ≡ hint.version) (λ _. self.new.last
            ≡ self.old.last) }
        ensures later { GoesOn (V.shown self.old.window) (V.shown self.new.window) }
        ensures leads { V.leads self.old.window self.new.window }
        ensures rising { IsSome (V.shown self.old.window) → self.old.last ≤ self.new.last }
    {
        let hint = self.window.look(ask)?;
        self.last = hint.version;
        Ok(hint)
    }
}
