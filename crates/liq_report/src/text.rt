//! The report of a protocol.

ghost use Rattle.std.specs.Prelude.{◌≡◌, IfOk, OnOk};
ghost use Rattle.liq_types.specs.State.{State};
ghost use Rattle.liq_core.specs.Core.{StandsFor, state_of};
ghost use Rattle.liq_report.specs.Report.{report_text};
ghost use Rattle.liq_report.specs.Sent.{SendsReport};

use crate::entries::{send_deposits, send_troves};
use crate::laws::reports_follow_the_image;
use crate::totals::{send_pool, send_system};
use liq_core::Protocol;
use liq_core::laws::protocols_stand;
use liq_types::NoMemory;
use serde::{Described, Serialize, Serializer};
use serde_json::to_vec;
use std::alloc::Global;

/// The report of a protocol: one object in JSON without spaces, in which the names of every object
/// ascend. Collateral is in gwei, debt and LUSD in micro-LUSD. How the protocol came to be shows
/// nowhere: states with one image and as many records have one report. Its names are `deposits`,
/// `pool`, `system` and `troves`. [`NoMemory`] is the only error.
pub fn report(alloc: Global, protocol: &Protocol) -> Result<Vec<u8>, NoMemory>
    ensures { IfOk result (λ text. (s : State) → StandsFor protocol.now s
        → text.items ≡ report_text s) }
{
    // odd: law called
    reports_follow_the_image();
    protocols_stand(protocol);
    match to_vec(alloc, &Document { protocol }) {
        Ok(text) => Ok(text),
        // What is sent is always written but for want of memory.
        Err(_) => Err(NoMemory),
    }
}

/// A protocol as its report.
#[derive(Drop)]
struct Document<'a> {
    protocol: &'a Protocol,
}

impl Described for Document<'_> {
    ghost writes = { λ document. SendsReport (state_of document.protocol.now) };
}

impl Serialize for Document<'_> {
    fn serialize<S: Serializer>(&self, out: &mut S) -> Result<(), S::Error> {
        send_report(self.protocol, out)
    }
}

/// Sends the report.
fn send_report<S: Serializer>(protocol: &Protocol, out: &mut S) -> Result<(), S::Error>
    ensures { OnOk result
        (SendsReport (state_of protocol.now) (S.written out.old) (S.written out.new)) }
{
    out.begin_map(Some(4))?;
    out.key("deposits")?;
    send_deposits(protocol, out)?;
    out.key("pool")?;
    send_pool(protocol, out)?;
    out.key("system")?;
    send_system(protocol, out)?;
    out.key("troves")?;
    send_troves(protocol, out)?;
    out.end_map()
}
