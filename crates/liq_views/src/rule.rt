//! The rule over what is published and over what each end has seen of it.

ghost use Rattle.std.specs.Prelude.{◌≡◌, [], ◌++◌, List};
ghost use Rattle.liq_views.specs.Batches.{Given};
ghost use Rattle.liq_views.specs.Rules.{Keeps, Looks, newcomer};

use crate::batch::Batch;
use crate::shelf::Shelf;
use crossbeam_utils::rule::{Outcome, Protocol};
use std::collections::LinkedList;
use std::marker::{Brand, PhantomData};

/// What an end has seen: the batches that made what it was shown, or that it published. No value of
/// it is made.
pub struct Sight {
    pub seen: LinkedList<Batch>,
}

/// There is one list of batches. It makes what is published, its numbers rise, and what each end
/// has seen is a beginning of it.
pub struct Published;

impl Protocol<Shelf, Sight> for Published {
    ghost holds = { Keeps };

    ghost first = { newcomer };
}

/// The batches that a publication sends, for proofs alone. A call at `Brand` picks them.
pub(crate) trait Pending {
    ghost batches: { List Given };
}

impl Pending for Brand {
    ghost batches = { [] };
}

/// A publication: the batches join what the publisher has seen.
pub(crate) struct Sends<B> {
    of: PhantomData<B>,
}

impl<B: Pending> Outcome<Shelf, Sight> for Sends<B> {
    ghost then = { λ v x y w. w.seen ≡ v.seen ++ B.batches };
}

/// A look: what is then seen makes what is shown, and goes on from what was seen before.
pub(crate) struct Sees;

impl Outcome<Shelf, Sight> for Sees {
    ghost then = { λ v x y w. Looks v.seen x w.seen };
}
