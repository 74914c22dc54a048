//! What readers see of what a book publishes. The function here does nothing: it is the place where
//! the facts of its contract are proved.

ghost use Rattle.std.specs.Prelude.{◌≡◌, ◌⊎◌, []};
ghost use Rattle.liq_types.specs.State.{State};
ghost use Rattle.liq_views.specs.declared.rule.Sight.{Sight};
ghost use Rattle.liq_views.specs.declared.shelf.Shelf.{Shelf};
ghost use Rattle.liq_views.specs.Batches.{version_after};
ghost use Rattle.liq_views.specs.Shelves.{after_all};
ghost use Rattle.liq_book.specs.Opened.{IsRead, IsVersionOf};
ghost use Rattle.liq_book.specs.Publishing.{IsPublishing, OpenBook};

use liq_views::laws::ends_see_beginnings;

/// What a reader of the book's publisher has seen makes a version of the book's one history, the
/// view after as many entries as the version's number says; or it has seen nothing yet. Behind a
/// look it has seen something, so the hint of that publisher's finder, which is the answer of the
/// version of what its pane has seen, is that of such a version.
pub fn readers_see_the_history<D>()
    ensures seen { (base : State) (b : OpenBook D) (x : Shelf) (reader : Sight)
        → IsPublishing base b → IsRead b.published x reader
        → (reader.seen ≡ [])
        ⊎ IsVersionOf base b.book.entries (version_after reader.seen) }
    ensures looked { (base : State) (b : OpenBook D) (x : Shelf) (reader : Sight)
        → IsPublishing base b → IsRead b.published x reader → x ≡ after_all reader.seen
        → IsVersionOf base b.book.entries (version_after reader.seen) }
{
    // odd: law called
    ends_see_beginnings();
}
