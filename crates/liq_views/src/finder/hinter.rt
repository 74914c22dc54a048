//! A finder as one who finds hints for requests.

ghost use Rattle.std.specs.Prelude.{◌≡◌, ◌≤◌, IfSome, IsSome};
ghost use Rattle.liq_views.specs.Hints.{sought, hint_of, absent};
ghost use Rattle.liq_views.specs.Windows.{GoesOn, Looked};

use super::Finder;
use crate::window::Window;
use liq_list_version::Ask;
use liq_types::{Call, Hint, Hinter, Request};

/// What a version is asked for a request; none where the request puts no trove into the list.
fn ask_for(request: &Request) -> Option<Ask>
    ensures { result ≡ sought request.now }
{
    let Request::Do(command) = request else {
        return None;
    };
    match command.call {
        Call::Open(account, coll, borrow, _, _) => Some(Ask::Open {
            account,
            coll,
            borrow,
        }),
        Call::Adjust(account, _, _, _, _, _, _) => Some(Ask::Own { account }),
        Call::GainToTrove(account, _) => Some(Ask::Own { account }),
        Call::Redeem(account, _, _, _) => Some(Ask::Own { account }),
        _ => None,
    }
}

impl<V: Window + Drop> Hinter for Finder<V> {
    /// By one look: for an opening the neighbours of the key at which the trove would stand by the
    /// version's words, for a change of a trove or a redemption those of the account's own key; for
    /// any other request both sides are absent.
    ///
    /// Where that look is shut, which comes only where the window's count of shut looks rose in
    /// this call, both sides are absent, of the last version that was seen.
    fn hint_for(&mut self, request: &Request) -> Hint
        ensures hint { Looked (V.shut self.old.window) (V.shut self.new.window)
            (IfSome (V.shown self.new.window) (λ v. result ≡ hint_of v request.now))
            ((V.shown self.new.window ≡ V.shown self.old.window)
            × (result ≡ absent self.old.last)) }
        ensures last { self.new.last ≡ result.version }
        ensures later { GoesOn (V.shown self.old.window) (V.shown self.new.window) }
        ensures leads { V.leads self.old.window self.new.window }
        ensures rising { IsSome (V.shown self.old.window) → self.old.last ≤ self.new.last }
    {
        match ask_for(request) {
            Some(ask) => match self.look(&ask) {
                Ok(hint) => hint,
                Err(_) => nothing_in(self.last),
            },
            None => nothing_in(self.version()),
        }
    }
}

/// A hint of nothing.
fn nothing_in(version: u64) -> Hint
    ensures { result ≡ absent version }
{
    Hint {
        prev: None,
        next: None,
        version,
    }
}
