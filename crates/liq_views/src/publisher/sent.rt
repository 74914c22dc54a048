//! A batch is appended to those that wait, and all of them go out in one publication.

ghost use Rattle.std.specs.Prelude.{◌≡◌, ◌≤◌, ◌⊎◌, [], ◌∷◌, ◌++◌, drop, IfOk, MatchResult};
ghost use Rattle.left_right.specs.Sides.{view};
ghost use Rattle.liq_views.specs.Batches.{last_from};
ghost use Rattle.liq_views.specs.Publishers.{published, waiting};
ghost use Rattle.liq_views.specs.Sending.{IsMade, IsSent};

use super::{ListWriter, Publisher};
use crate::batch::Batch;
use crate::rule::{Pending, Sends};
use core::mem::replace_with;
use liq_types::{ListChange, NoMemory};
use std::alloc::AllocError;
use std::marker::Brand;
use std::sync::Wait;

/// One publication that went out. A publisher alone makes it, and nobody copies it: whoever has one
/// had a publisher publish.
#[derive(Drop)]
pub struct Publication {
    number: u64,
}

impl Publication {
    /// The number of the version that it made.
    pub fn number(&self) -> u64
        ensures { result ≡ self.now.number }
    {
        self.number
    }
}

impl Publisher {
    /// Publishes one more batch, behind those that wait, as version `number`, which isn't below the
    /// last one's.
    ///
    /// After `NoMemory` finders are shown what they were shown before. The batch then either was
    /// not taken, or it waits and goes out with the next publication.
    pub fn publish<R: Wait>(
        &mut self,
        rt: &R,
        changes: &[ListChange],
        number: u64,
    ) -> Result<Publication, NoMemory>
        requires { last_from 0 (published self.old ++ waiting self.old) ≤ number }
        ensures number { IfOk result (λ p. p.number ≡ number) }
        ensures sent { MatchResult result
            (λ _. (published self.new ≡ published self.old ++ (waiting self.old
            ++ record { changes = changes.now; number = number } ∷ []))
            × (waiting self.new ≡ []))
            (λ _. (published self.new ≡ published self.old)
            × ((waiting self.new ≡ waiting self.old)
            ⊎ (waiting self.new ≡ waiting self.old ++ record {
              changes = changes.now;
              number = number;
            } ∷ []))) }
        ensures last { last_from 0 (published self.new ++ waiting self.new) ≤ number }
    {
        let batch = Batch::new(self.alloc, changes, number)?;
        match self.writer.append(batch) {
            Ok(()) => {}
            Err(_) => return Err(NoMemory),
        }
        let sent = replace_with(
            &mut self.writer,
            rt,
            |writer, rt| -> (ListWriter, Result<(), AllocError>)
                requires { IsMade writer.desk.shown.value (view writer.desk.place)
                    (drop writer.behind writer.log.items) }
                ensures { IsSent result.1
                    writer.desk.shown.value (view writer.desk.place)
                    (drop writer.behind writer.log.items)
                    result.0.desk.shown.value (view result.0.desk.place)
                    (drop result.0.behind result.0.log.items) }
            { send(rt, writer) },
        );
        match sent {
            Ok(()) => Ok(Publication { number }),
            Err(_) => Err(NoMemory),
        }
    }
}

/// Publishes what waits.
fn send<R: Wait>(rt: &R, writer: ListWriter) -> (ListWriter, Result<(), AllocError>)
    requires { IsMade writer.desk.shown.value (view writer.desk.place)
        (drop writer.behind writer.log.items) }
    ensures { IsSent result.1
        writer.desk.shown.value (view writer.desk.place) (drop writer.behind writer.log.items)
        result.0.desk.shown.value (view result.0.desk.place)
        (drop result.0.behind result.0.log.items) }
{
    send_these::<Brand, R>(rt, writer)
}

/// Publishes what waits, which is `B`'s batches.
fn send_these<B: Pending, R: Wait>(
    rt: &R,
    writer: ListWriter,
) -> (ListWriter, Result<(), AllocError>)
    requires these { B.batches ≡ drop writer.behind writer.log.items }
    requires made { IsMade writer.desk.shown.value (view writer.desk.place)
        (drop writer.behind writer.log.items) }
    ensures { IsSent result.1
        writer.desk.shown.value (view writer.desk.place) (drop writer.behind writer.log.items)
        result.0.desk.shown.value (view result.0.desk.place)
        (drop result.0.behind result.0.log.items) }
{
    writer.publish_as::<Sends<B>, R>(rt)
}
