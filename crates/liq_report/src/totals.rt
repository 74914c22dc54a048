//! The Stability Pool's words and the totals, as objects.

ghost use Rattle.std.specs.Prelude.{◌≡◌, OnOk};
ghost use Rattle.liq_types.specs.State.{State};
ghost use Rattle.liq_stability.specs.Words.{pool_words};
ghost use Rattle.liq_rule_step.specs.Queries.{system};
ghost use Rattle.liq_core.specs.Core.{state_of};
ghost use Rattle.serde_json.specs.Events.{SendsValue};
ghost use Rattle.liq_report.specs.Told.{system_words};
ghost use Rattle.liq_report.specs.Values.{pool_data, totals_data, totals_of};

use crate::objects::{Totals, send_totals, send_words};
use liq_core::Protocol;
use liq_core::laws::protocols_stand;
use liq_types::{Info, Query, Reply};
use serde::Serializer;

/// Sends the Stability Pool's words.
pub fn send_pool<S: Serializer>(protocol: &Protocol, out: &mut S) -> Result<(), S::Error>
    ensures { OnOk result (SendsValue (pool_data (pool_words (state_of protocol.now)))
        (S.written out.old) (S.written out.new)) }
{
    // odd: law called
    protocols_stand(protocol);
    send_words(out, protocol.pool_words())
}

/// Sends price, time, rate and totals, as `system` tells them.
pub fn send_system<S: Serializer>(protocol: &Protocol, out: &mut S) -> Result<(), S::Error>
    ensures { OnOk result (SendsValue (totals_data (totals_of (state_of protocol.now)))
        (S.written out.old) (S.written out.new)) }
{
    send_totals(out, totals(protocol))
}

/// The words of the reply to `system`.
fn totals(protocol: &Protocol) -> Totals
    ensures { result ≡ totals_of (state_of protocol.now) }
{
    // odd: law called
    protocols_stand(protocol);
    let reply = protocol.query(&Query::System);
    named(system_in(&reply))
}

/// The ten words of the totals, in their order, by the reply to a query for them; zeros by any
/// other reply.
fn system_in(reply: &Reply) -> [u64; 10]
    ensures { result ≡ system_words reply.now }
{
    match *reply {
        Reply::Told(Info::System { words }) => words,
        _ => [0; 10],
    }
}

/// Ten words by their names.
fn named(words: [u64; 10]) -> Totals
    ensures { (s : State) → words ≡ system s → result ≡ totals_of s }
{
    let [price, minute, base, fee_minute, mode, ..] = words;
    let [.., troves, stakes, coll, debt, records] = words;
    Totals {
        price,
        minute,
        base,
        fee_minute,
        mode,
        troves,
        stakes,
        coll,
        debt,
        records,
    }
}
