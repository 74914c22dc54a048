//! Whom a command touches: whom its call names, and then the others whose troves it moved in the
//! list or took out of it.

ghost use Rattle.std.specs.Prelude.{◌≡◌, ◌+◌, ◌<◌, ◌≤◌, ◌++◌, ◌∷◌, [], length, take};
ghost use Rattle.std.specs.Prelude.{vec_capacity, vec_len};
ghost use Rattle.liq_rule_step.specs.Step.{accounts};
ghost use Rattle.liq_market.specs.Touching.{moved, others, touched};

use liq_core::{CallAccounts, accounts_of};
use liq_types::{Call, ListChange};

/// The most accounts that a call names.
pub(crate) const NAMED_MOST: usize = 2;

/// Writes down whom a call touches that changes the list so, in place of those who stand there.
/// There is room for them.
pub(crate) fn note(all: &mut Vec<u32>, call: &Call, changes: &[ListChange])
    requires { NAMED_MOST + length changes.now ≤ vec_capacity all.old }
    ensures { all.new.items ≡ touched call.now changes.now }
{
    all.clear();
    note_named(all, call);
    let named = all.len();
    for change in changes {
        note_moved(all, named, change);
    }
}

/// Adds the accounts that a call names, in the order of its words.
fn note_named(all: &mut Vec<u32>, call: &Call)
    requires none { vec_len all.old ≡ 0 }
    requires room { NAMED_MOST ≤ vec_capacity all.old }
    ensures named { all.new.items ≡ all.old.items ++ accounts call.now }
    ensures few { vec_len all.new ≤ NAMED_MOST }
    ensures capacity { vec_capacity all.new ≡ vec_capacity all.old }
{
    match accounts_of(call) {
        CallAccounts::Nobody => {}
        CallAccounts::One(account) => all.push_reserved(account),
        CallAccounts::Both(first, second) => {
            all.push_reserved(first);
            all.push_reserved(second);
        }
    }
}

/// Adds the account that a change moves, where it moves one that is not among the first ones.
fn note_moved(all: &mut Vec<u32>, named: usize, change: &ListChange)
    requires named { named ≤ vec_len all.old }
    requires room { vec_len all.old < vec_capacity all.old }
    ensures moved { all.new.items
        ≡ all.old.items ++ others (take named all.old.items) (change.now ∷ []) }
    ensures few { vec_len all.new ≤ vec_len all.old + 1 }
    ensures kept { vec_len all.old ≤ vec_len all.new }
    ensures capacity { vec_capacity all.new ≡ vec_capacity all.old }
{
    let Some(account) = moved(change) else {
        return;
    };
    if all[..named].contains(&account) {
        return;
    }
    all.push_reserved(account);
}

/// The account whose place a change changes.
fn moved(change: &ListChange) -> Option<u32>
    ensures { result ≡ moved change.now }
{
    match *change {
        ListChange::Put { account, .. } | ListChange::Gone { account } => Some(account),
        ListChange::Words { .. } => None,
    }
}
