//! The objects of a report, as they are sent to be written.

ghost use Rattle.std.specs.Prelude.{OnOk, decimal};
ghost use Rattle.serde_json.specs.Data.{string};
ghost use Rattle.serde_json.specs.Events.{SendsValue};
ghost use Rattle.liq_report.specs.Values.{deposit_data, numbers_data, pool_data, totals_data, trove_data};

use itoa::Buffer;
use liq_stability::PoolWords;
use serde::Serializer;

/// Sends a deposit with its position: what is left of it (micro-LUSD), and what it has gained
/// (gwei).
pub fn send_deposit<S: Serializer>(
    out: &mut S,
    account: u32,
    position: (u64, u64),
) -> Result<(), S::Error>
    ensures { OnOk result
        (SendsValue (deposit_data account position) (S.written out.old) (S.written out.new)) }
{
    let (balance, gain) = position;
    let numbers = [
        ("account", u64::from(account)),
        ("balance", balance),
        ("gain", gain),
    ];
    send_numbers(out, &numbers)
}

/// Sends a trove: its entire collateral (gwei), its entire debt (micro-LUSD), and its stake.
pub fn send_trove<S: Serializer>(
    out: &mut S,
    account: u32,
    standing: (u64, u64, u64),
) -> Result<(), S::Error>
    ensures { OnOk result
        (SendsValue (trove_data account standing) (S.written out.old) (S.written out.new)) }
{
    let (coll, debt, stake) = standing;
    let numbers = [
        ("account", u64::from(account)),
        ("coll", coll),
        ("debt", debt),
        ("stake", stake),
    ];
    send_numbers(out, &numbers)
}

/// Sends the Stability Pool's words. Product and sum are words of 128 bits, and strings of digits.
pub fn send_words<S: Serializer>(out: &mut S, words: &PoolWords) -> Result<(), S::Error>
    ensures { OnOk result
        (SendsValue (pool_data words.now) (S.written out.old) (S.written out.new)) }
{
    out.begin_map(Some(4))?;
    out.key("epoch")?;
    out.u64(words.epoch)?;
    out.key("p")?;
    send_digits(out, words.p)?;
    out.key("scale")?;
    out.u64(words.scale)?;
    out.key("sum")?;
    send_digits(out, words.sum)?;
    out.end_map()
}

/// The ten words of the reply to `system`.
#[derive(Clone, Copy)]
pub struct Totals {
    /// Micro-LUSD per ether.
    pub price: u64,
    pub minute: u64,
    /// The base rate as of the minute of the last fee, over 10^18.
    pub base: u64,
    pub fee_minute: u64,
    /// 1 in Recovery Mode, else 0.
    pub mode: u64,
    /// How many troves there are.
    pub troves: u64,
    pub stakes: u64,
    /// Collateral of all troves, in gwei.
    pub coll: u64,
    /// Debt of all troves, in micro-LUSD.
    pub debt: u64,
    pub records: u64,
}

/// Sends the totals.
pub fn send_totals<S: Serializer>(out: &mut S, totals: Totals) -> Result<(), S::Error>
    ensures { OnOk result
        (SendsValue (totals_data totals) (S.written out.old) (S.written out.new)) }
{
    let numbers = [
        ("base", totals.base),
        ("coll", totals.coll),
        ("debt", totals.debt),
        ("fee_minute", totals.fee_minute),
        ("minute", totals.minute),
        ("mode", totals.mode),
        ("price", totals.price),
        ("records", totals.records),
        ("stakes", totals.stakes),
        ("troves", totals.troves),
    ];
    send_numbers(out, &numbers)
}

/// Sends an object of numbers by their names.
fn send_numbers<S: Serializer>(out: &mut S, numbers: &[(&str, u64)]) -> Result<(), S::Error>
    ensures { OnOk result
        (SendsValue (numbers_data numbers.now) (S.written out.old) (S.written out.new)) }
{
    out.begin_map(Some(numbers.len()))?;
    for (name, number) in numbers {
        out.key(name)?;
        out.u64(*number)?;
    }
    out.end_map()
}

/// Sends a string of a number's digits.
fn send_digits<S: Serializer>(out: &mut S, number: u128) -> Result<(), S::Error>
    ensures { OnOk result
        (SendsValue (string (decimal number)) (S.written out.old) (S.written out.new)) }
{
    let mut buffer = Buffer::new();
    out.str(buffer.format(number))
}
