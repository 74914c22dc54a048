//! What the rule over what is published says. The function here does nothing: it is the place where
//! the fact of its contract is proved.

ghost use Rattle.std.specs.Prelude.{◌≡◌, ℕ, List};
ghost use mathlib.Core.Option.{some};
ghost use lib.ListN.{get_elem?};
ghost use Rattle.liq_views.specs.declared.rule.Sight.{Sight};
ghost use Rattle.liq_views.specs.declared.shelf.Shelf.{Shelf};
ghost use Rattle.liq_views.specs.Batches.{StartsWith};
ghost use Rattle.liq_views.specs.Rules.{Keeps};
ghost use Rattle.liq_views.specs.Shelves.{after_all};

/// Of two ends, one of which has seen batches that make what is published, as the publisher has,
/// the other has seen a beginning of these; and all of them, where what it has seen makes what is
/// published too, as behind a look.
pub fn ends_see_beginnings()
    ensures begins { (x : Shelf) (views : List Sight) → Keeps x views
        → (publisher reader : Sight) (i j : ℕ)
        → get_elem? views i ≡ some publisher → get_elem? views j ≡ some reader
        → x ≡ after_all publisher.seen → StartsWith publisher.seen reader.seen }
    ensures looked { (x : Shelf) (views : List Sight) → Keeps x views
        → (publisher reader : Sight) (i j : ℕ)
        → get_elem? views i ≡ some publisher → get_elem? views j ≡ some reader
        → x ≡ after_all publisher.seen → x ≡ after_all reader.seen
        → reader.seen ≡ publisher.seen }
{}
