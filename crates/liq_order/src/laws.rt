//! What holds of the definitions that the contracts cite. The functions here do nothing: each is
//! the place where the facts of its contract are proved.

ghost use Rattle.std.specs.Prelude.{List};
ghost use Rattle.std.specs.List.Sorted.{IsPermutation};
ghost use Rattle.liq_types.specs.declared.figures.Trove.{Trove};
ghost use Rattle.liq_types.specs.Tables.{Table};
ghost use Rattle.liq_types.specs.WellFormed.{Ascends};
ghost use Rattle.liq_order.specs.Order.{Ranked, IsInOrder, IsAscending, sorted, ranks, order_by};

/// Sorting keeps the entries, and leaves none behind one that it comes before.
pub fn sorting_sorts()
    ensures same { (entries : List Ranked) → IsPermutation entries (sorted entries) }
    ensures in_order { (entries : List Ranked) → IsInOrder (sorted entries) }
{}

/// The trove order has exactly the troves, each under its key. Where the table of troves has each
/// account once, each trove comes before all that stand behind it.
pub fn trove_order_is_sorted()
    ensures same { (troves : Table Trove) → IsPermutation (ranks troves) (order_by troves) }
    ensures ascending { (troves : Table Trove) → Ascends troves → IsAscending (order_by troves) }
{}
