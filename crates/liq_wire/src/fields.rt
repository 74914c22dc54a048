//! Which word of a command stands in which field: the one table by which its bytes are read and
//! written.
ghost use Rattle.std.specs.Prelude.{◌≡◌, replicate};
ghost use Rattle.liq_wire.specs.Fields.{fields_of, hint_word};
ghost use Rattle.liq_wire.specs.View.{seen};

use liq_types::{Call, Command, HintWords};

// Two accounts, five amounts and two hints. A field that the kind does not use is 0.
#[derive(Clone, Copy)]
pub struct Fields {
    pub kind: u8,
    pub client: u32,
    pub number: u64,
    pub account: u32,
    pub other: u32,
    pub amounts: [u64; 5],
    pub before: u32,
    pub after: u32,
}

const NO_HINT: u32 = u32::MAX;

pub fn fields_of(command: &Command) -> Fields
    ensures { seen result (replicate 3 0) (replicate 24 0) ≡ fields_of command.now }
{
    let plain = |kind: u8, account: u32, other: u32, amounts: [u64; 5]| Fields {
        kind,
        client: command.client,
        number: command.number,
        account,
        other,
        amounts,
        before: 0,
        after: 0,
    };
    match command.call {
        Call::Price(price) => plain(1, 0, 0, [price, 0, 0, 0, 0]),
        Call::Advance(minutes) => plain(2, 0, 0, [minutes, 0, 0, 0, 0]),
        Call::Fund(account, coll) => plain(3, account, 0, [coll, 0, 0, 0, 0]),
        Call::Take(account, coll) => plain(4, account, 0, [coll, 0, 0, 0, 0]),
        Call::Send(from, to, lusd) => plain(5, from, to, [lusd, 0, 0, 0, 0]),
        Call::Open(account, coll, borrow, bound, hints) => {
            with_hints(plain(6, account, 0, [coll, borrow, bound, 0, 0]), hints)
        }
        Call::Adjust(account, coll_in, coll_out, borrow, repay, bound, hints) => {
            let amounts = [coll_in, coll_out, borrow, repay, bound];
            with_hints(plain(7, account, 0, amounts), hints)
        }
        Call::Close(account) => plain(8, account, 0, [0; 5]),
        Call::Provide(account, lusd) => plain(9, account, 0, [lusd, 0, 0, 0, 0]),
        Call::Withdraw(account, lusd) => plain(10, account, 0, [lusd, 0, 0, 0, 0]),
        Call::GainToTrove(account, hints) => with_hints(plain(11, account, 0, [0; 5]), hints),
        Call::Liquidate(liquidator, owner) => plain(12, liquidator, owner, [0; 5]),
        Call::LiquidateLowest(liquidator, count) => plain(13, liquidator, 0, [count, 0, 0, 0, 0]),
        Call::Redeem(account, lusd, bound, hints) => {
            with_hints(plain(14, account, 0, [lusd, bound, 0, 0, 0]), hints)
        }
        Call::Claim(account) => plain(15, account, 0, [0; 5]),
        Call::Rotate => plain(16, 0, 0, [0; 5]),
    }
}

// The fields with two hints.
fn with_hints(fields: Fields, hints: HintWords) -> Fields
    ensures { result ≡ record fields {
      before = hint_word hints.prev;
      after = hint_word hints.next;
    } }
{
    Fields {
        before: hints.prev.unwrap_or(NO_HINT),
        after: hints.next.unwrap_or(NO_HINT),
        ..fields
    }
}
