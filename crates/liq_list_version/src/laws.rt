//! What holds of every version. The function here does nothing: it is the place where the fact of
//! its contract is proved.

ghost use Rattle.std.specs.Prelude.{◌≡◌, ◌↔◌, None, []};
ghost use Rattle.liq_types.specs.Ranked.{without_ranked};
ghost use Rattle.liq_list_version.specs.declared.asks.Ask.{Ask};
ghost use Rattle.liq_list_version.specs.Versions.{Numbered, answer_of, asker};

/// An answer has no account on either side exactly where nobody but the asker is in the list.
pub fn both_absent_where_empty()
    ensures { (v : Numbered) → (ask : Ask) → ((answer_of v ask).prev ≡ None)
        × ((answer_of v ask).next ≡ None) ↔ (without_ranked v.view.list (asker ask) ≡ []) }
{}
