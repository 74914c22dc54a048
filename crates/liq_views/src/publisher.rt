//! The one who publishes: it has the batches that are out, and those that wait.

ghost use Rattle.std.specs.Prelude.{◌≡◌, ◌++◌, drop};
ghost use Rattle.left_right.specs.Sides.{view};
ghost use Rattle.liq_views.specs.Batches.{Rise, Rise-prop};
ghost use Rattle.liq_views.specs.Shelves.{after_all};

use crate::batch::Batch;
use crate::rule::{Published, Sight};
use crate::shelf::Shelf;
use left_right::writer::Writer;
use std::alloc::Global;

mod made;
mod sent;

pub use sent::Publication;

pub(crate) type ListWriter = Writer<Shelf, Batch, Sight, Published>;

/// Publishes versions of the ordered list. It is not `Drop`: end it by `close`.
pub struct Publisher {
    alloc: Global,
    writer: Writer<Shelf, Batch, Sight, Published>,
    ghost knows: { writer.desk.shown.value ≡ after_all (view writer.desk.place).seen },
    ghost rise: { Rise 0 ((view writer.desk.place).seen ++ drop writer.behind writer.log.items) } by { Rise-prop 0 ((view writer.desk.place).seen ++ drop writer.behind writer.log.items) },
}
