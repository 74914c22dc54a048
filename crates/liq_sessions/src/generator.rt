//! Calls that a seed determines: a preamble that opens troves and deposits, and calls that are
//! drawn.

ghost use Rattle.std.specs.Prelude.{◌≡◌, ◌<◌, ◌+◌, ◌*◌, ◌/◌, ◌%◌, ◌^◌, drop, length};
ghost use Rattle.liq_types.specs.Ranked.{first_of};
ghost use Rattle.liq_sessions.specs.Generated.{after_call, after_draw, call_of, drawn_call, generated, opening_call, shown, PREAMBLE};

use liq_types::amounts::ONE;
use liq_types::{Call, HintWords};
use std::marker::Model;

/// The accounts that have a trove and a deposit at the start: from 1 on.
const OWNERS: u64 = 50;

/// The calls before those that are drawn: three for each owner.
const PREAMBLE: u64 = 3 * OWNERS;

/// Who liquidates.
const LIQUIDATOR: u32 = 1000;

/// Calls that a seed determines, one after the other. Contracts see the list of those that are
/// still to come.
#[derive(Clone, Drop)]
pub struct Generator {
    state: u64,
    /// How many calls of the preamble came.
    opened: u64,
    /// How many drawn calls are still to come.
    left: u64,
}

impl Model for Generator {
    ghost use Rattle.std.specs.Prelude.{List, ◌≤◌};
    ghost use Rattle.liq_types.specs.declared.requests.Call.{Call};
    ghost use Rattle.liq_sessions.specs.Generated.{to_come, PREAMBLE};

    ghost Value = { List Call };

    ghost view = { λ g. to_come g.state g.opened g.left };

    ghost invariant = { λ g. g.opened ≤ PREAMBLE };
}

/// The calls of a seed: 150 that open troves and deposits, and then so many that are drawn.
pub fn generate(seed: u64, count: u64) -> Generator
    ensures calls { result ≡ generated seed count }
    ensures many { length result ≡ PREAMBLE + count }
{
    Generator {
        state: seed,
        opened: 0,
        left: count,
    }
}

impl Generator {
    /// The next call: `None` exactly where all have come.
    pub fn next(&mut self) -> Option<Call>
        ensures first { result ≡ first_of self.old }
        ensures rest { self.new ≡ drop 1 self.old }
    {
        if self.opened < PREAMBLE {
            let call = opening_call(self.opened);
            self.opened += 1;
            return Some(call);
        }
        if self.left == 0 {
            return None;
        }
        self.left -= 1;
        Some(draw_call(&mut self.state))
    }
}

/// The call of the preamble that has so many before it.
fn opening_call(before: u64) -> Call
    requires { before < PREAMBLE }
    ensures { result ≡ opening_call before }
{
    let account = 1 + (before / 3) as u32;
    match before % 3 {
        0 => Call::Fund(account, 1_000_000_000_000),
        1 => Call::Open(
            account,
            100_000_000_000,
            20_000_000_000,
            ONE,
            HintWords::NONE,
        ),
        _ => Call::Provide(account, 10_000_000_000),
    }
}

/// The next drawn call.
fn draw_call(state: &mut u64) -> Call
    ensures call { result ≡ drawn_call state.old }
    ensures state { state.new ≡ after_call state.old }
{
    let kind = draw(state) % 16;
    let account = 1 + (draw(state) % OWNERS) as u32;
    let number = draw(state);
    call_by(kind, account, number)
}

/// A number below 2^31.
fn draw(state: &mut u64) -> u64
    ensures state { state.new ≡ after_draw state.old }
    ensures number { result ≡ shown state.new }
    ensures small { result < 2 ^ 31 }
{
    *state = state
        .wrapping_mul(6_364_136_223_846_793_005)
        .wrapping_add(1_442_695_040_888_963_407);
    *state >> 33
}

/// The call of a kind, by an account and a number.
fn call_by(kind: u64, account: u32, number: u64) -> Call
    requires kind { kind < 16 }
    requires number { number < 2 ^ 31 }
    ensures { result ≡ call_of kind account number }
{
    match kind {
        0 => Call::Price(300_000_000 + number % 900_000_000),
        1 => Call::Advance(1 + number % 600),
        2 => Call::Open(
            account,
            100_000_000_000,
            2_000_000_000 + number,
            ONE,
            HintWords::NONE,
        ),
        3 => Call::Adjust(account, 0, 0, number, 0, ONE, HintWords::NONE),
        4 => Call::Adjust(account, 0, 0, 0, number, 0, HintWords::NONE),
        5 => Call::Adjust(account, number, 0, 0, 0, 0, HintWords::NONE),
        6 => Call::Adjust(account, 0, number, 0, 0, 0, HintWords::NONE),
        7 => Call::Close(account),
        8 => Call::Provide(account, 1 + number),
        9 => Call::Withdraw(account, number),
        10 => Call::GainToTrove(account, HintWords::NONE),
        11 => Call::Liquidate(LIQUIDATOR, account),
        12 => Call::LiquidateLowest(LIQUIDATOR, 1 + number % 64),
        13 => Call::Redeem(account, 1 + number, ONE, HintWords::NONE),
        14 => Call::Claim(account),
        _ => Call::Send(account, 1 + (number % OWNERS) as u32, 1 + number),
    }
}
