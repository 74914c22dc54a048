//! Worked examples, run by hand. Most functions here do nothing; each is the place where the facts
//! of its contract are proved.

ghost use Rattle.std.specs.Prelude.{◌≡◌, ◌+◌, ◌≤◌, [], ◌∷◌, Some, length};
ghost use Rattle.liq_order.specs.Examples.{entry, four, five, alike};
ghost use Rattle.liq_order.specs.Order.{sorted, with_ranked, IsTight};

use crate::list::Order;
use liq_types::{Hint, Steps};
use std::sync::ledger::Ledger;

/// Entries stand by their keys and, where keys are equal, by their accounts.
pub fn sorted_example()
    ensures five { sorted five
        ≡ entry 10 1 ∷ entry 20 2 ∷ entry 25 9 ∷ entry 30 3 ∷ entry 40 4 ∷ [] }
    ensures alike { sorted alike ≡ entry 10 1 ∷ entry 20 2 ∷ entry 20 5 ∷ [] }
{}

/// An entry's neighbours are a tight hint for it: it goes between them.
pub fn tight_hint_example()
    ensures tight { IsTight four (entry 25 9) (Some 2) (Some 3) }
    ensures between { with_ranked four (entry 25 9) ≡ sorted five }
{}

/// A fifth account comes between the second and the third. With these two as its hint there are
/// four steps at most, and with any other hint eight; the list is the same.
pub fn fifth_example<L: Ledger>(order: &mut Order, hint: &Hint, steps: &mut Steps<L>)
    requires four { order.old.entries ≡ four }
    requires room { 1 ≤ order.old.room }
    ensures five { order.new.entries ≡ sorted five }
    ensures tight { hint.now.prev ≡ Some 2 → hint.now.next ≡ Some 3 → steps.new ≤ steps.old + 4 }
    ensures any { steps.new ≤ steps.old + 8 }
{
    order.insert(25, 9, hint, steps);
}

/// A thousand accounts come in rising order, each with its neighbours as its hint: there are four
/// thousand steps at most.
pub fn thousand_example<L: Ledger>(order: &mut Order, steps: &mut Steps<L>)
    requires none { order.old.entries ≡ [] }
    requires room { 1000 ≤ order.old.room }
    ensures all { length order.new.entries ≡ 1000 }
    ensures steps { steps.new ≤ steps.old + 4000 }
{
    for account in 0..1000u32 {
        let hint = Hint {
            prev: account.checked_sub(1),
            next: None,
            version: 0,
        };
        order.insert(i128::from(account), account, &hint, steps);
    }
}
