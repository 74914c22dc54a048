//! What the rule of the lock says. The function here does nothing: it is the place where the fact
//! of its contract is proved.

ghost use Rattle.std.specs.Prelude.{ℕ, Option};
ghost use Rattle.atomic_table.specs.Table.{State};
ghost use Rattle.liq_lock.specs.declared.view.View.{View};
ghost use Rattle.liq_lock.specs.Sentences.{Sentences};

use crate::chronicle::Chronicle;
use crate::rule::Turns;
use crate::view::View;
use atomic_table::TableRule;

/// The rule of the lock's table, which holds between any two atomic steps, says the ten sentences.
pub fn rule_in_sentences<T: Chronicle>()
    ensures { (n : ℕ) (s : State (Option T) (View T.Item))
        → ⟦<Turns as TableRule<Option<T>, View<T::Item>, u32>>⟧.holds n s
        → Sentences T.history T.maker n s }
{}
