//! What holds of the definitions that the contracts cite. The functions here do nothing: each is
//! the place where the facts of its contract are proved.

ghost use Rattle.std.specs.Prelude.{◌≡◌, ◌++◌, List};
ghost use Rattle.liq_types.specs.declared.events.ListChange.{ListChange};
ghost use Rattle.liq_types.specs.Ranked.{IsAscending};
ghost use Rattle.liq_types.specs.Views.{View, all_followed};

/// Changes that were followed may be given again, with later ones behind them: what comes of it is
/// what they make of the view as it was before any of them.
pub fn changes_given_again()
    ensures { (v : View) → (first more : List ListChange) → IsAscending v.list →
        all_followed (all_followed v first) (first ++ more) ≡ all_followed v (first ++ more) }
{}

/// A list that ascends does so after all changes.
pub fn following_keeps_order()
    ensures { (v : View) → (changes : List ListChange) → IsAscending v.list
        → IsAscending (all_followed v changes).list }
{}
