//! Deposits and troves, as lists of objects.

ghost use Rattle.std.specs.Prelude.{◌≡◌, ◌<◌, OnOk};
ghost use Rattle.liq_core.specs.Core.{state_of};
ghost use Rattle.liq_report.specs.Sent.{SendsList};
ghost use Rattle.liq_report.specs.Values.{deposit_at, deposit_in, deposits_data, trove_at, trove_in, troves_data};

use crate::objects::{send_deposit, send_trove};
use liq_core::Protocol;
use liq_core::laws::{protocols_are_sound_states, protocols_stand};
use liq_types::amounts::ACCOUNTS;
use liq_types::{Info, Query, Reply};
use serde::Serializer;

/// Sends the deposits with their balances and gains, in ascending accounts.
pub fn send_deposits<S: Serializer>(protocol: &Protocol, out: &mut S) -> Result<(), S::Error>
    ensures { OnOk result (SendsList (deposits_data (state_of protocol.now))
        (S.written out.old) (S.written out.new)) }
{
    // odd: law called
    protocols_are_sound_states(protocol);
    out.begin_seq(None)?;
    for account in 0..ACCOUNTS {
        if let Some(position) = deposit(protocol, account) {
            send_deposit(out, account, position)?;
        }
    }
    out.end_seq()
}

/// Sends the troves with their entire amounts, in ascending accounts.
pub fn send_troves<S: Serializer>(protocol: &Protocol, out: &mut S) -> Result<(), S::Error>
    ensures { OnOk result (SendsList (troves_data (state_of protocol.now))
        (S.written out.old) (S.written out.new)) }
{
    // odd: law called
    protocols_are_sound_states(protocol);
    out.begin_seq(None)?;
    for account in 0..ACCOUNTS {
        if let Some(standing) = trove(protocol, account) {
            send_trove(out, account, standing)?;
        }
    }
    out.end_seq()
}

/// What is left of an account's deposit (micro-LUSD) and what it has gained (gwei), if it has one.
fn deposit(protocol: &Protocol, account: u32) -> Option<(u64, u64)>
    requires { account < ACCOUNTS }
    ensures { result ≡ deposit_at (state_of protocol.now) account }
{
    // odd: law called
    protocols_stand(protocol);
    let reply = protocol.query(&Query::Deposit(account));
    deposit_in(&reply)
}

/// The entire collateral (gwei) and debt (micro-LUSD) of an account's trove, and its stake, if it
/// has one: what is recorded and what is pending.
fn trove(protocol: &Protocol, account: u32) -> Option<(u64, u64, u64)>
    requires { account < ACCOUNTS }
    ensures { result ≡ trove_at (state_of protocol.now) account }
{
    // odd: law called
    protocols_stand(protocol);
    let reply = protocol.query(&Query::Trove(account));
    trove_in(&reply)
}

/// Balance and gain, by the reply to a query for a deposit.
fn deposit_in(reply: &Reply) -> Option<(u64, u64)>
    ensures { result ≡ deposit_in reply.now }
{
    match *reply {
        Reply::Told(Info::Deposit { balance, gain }) => Some((balance, gain)),
        _ => None,
    }
}

/// Collateral, debt and stake, by the reply to a query for a trove.
fn trove_in(reply: &Reply) -> Option<(u64, u64, u64)>
    ensures { result ≡ trove_in reply.now }
{
    match *reply {
        Reply::Told(Info::Trove { coll, debt, stake }) => Some((coll, debt, stake)),
        _ => None,
    }
}
