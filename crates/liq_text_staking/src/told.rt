//! Lines of the text that answers stakers.

ghost use Rattle.std.specs.Prelude.{◌≡◌, ◌++◌, ◌∷◌, [], codes, decimal, map, OnOk};
ghost use Rattle.liq_text.specs.Writing.{words_line};
ghost use Rattle.liq_text_staking.specs.Asked.{numbers_of};
ghost use Rattle.liq_text_staking.specs.Staked.{row_words};

use itoa::Buffer;
use liq_fees::{StakeRefusal, StakeRow};
use liq_text::append_line;
use std::alloc::AllocError;

/// The code of a line that is out of place.
const OUT_OF_PLACE: u128 = 44;

/// A line is out of place. Its fields are printed in their order behind its code.
#[derive(Clone, Copy, PartialEq, Eq)]
pub struct OutOfPlace {
    /// The record of the line.
    pub at: u64,
    /// The least that it could have been.
    pub least: u64,
    /// The most that it could have been.
    pub most: u64,
}

/// Appends the reply to a line that is out of place.
pub(crate) fn put_out_of_place(text: &mut Vec<u8>, why: &OutOfPlace) -> Result<(), AllocError>
    ensures { OnOk result (text.new.items ≡ text.old.items
        ++ words_line (codes "no"
        ∷ map decimal (44 ∷ why.now.at ∷ why.now.least ∷ why.now.most ∷ []))) }
{
    let numbers = [
        OUT_OF_PLACE,
        u128::from(why.at),
        u128::from(why.least),
        u128::from(why.most),
    ];
    append_line(text, b"no", &numbers)
}

/// Appends the reply to a line that is refused: the refusal's code and its values.
pub(crate) fn put_refusal(text: &mut Vec<u8>, refusal: &StakeRefusal) -> Result<(), AllocError>
    ensures { OnOk result (text.new.items
        ≡ text.old.items ++ words_line (codes "no" ∷ map decimal (numbers_of refusal.now))) }
{
    match *refusal {
        StakeRefusal::AccountRange { value } => append_line(text, b"no", &[13, u128::from(value)]),
        StakeRefusal::AmountZero => append_line(text, b"no", &[11]),
        StakeRefusal::AmountLimit { sum, limit } => {
            append_line(text, b"no", &[12, sum, u128::from(limit)])
        }
        StakeRefusal::ShortStake { need, have } => {
            append_line(text, b"no", &[43, u128::from(need), u128::from(have)])
        }
    }
}

/// Appends an account's line.
pub(crate) fn put_row(text: &mut Vec<u8>, row: StakeRow) -> Result<(), AllocError>
    ensures { OnOk result (text.new.items ≡ text.old.items ++ words_line (row_words row)) }
{
    let numbers = [
        u128::from(row.stake),
        u128::from(row.coll),
        u128::from(row.lusd),
        u128::from(row.allow),
    ];
    append_line(text, Buffer::new().format(row.account).as_bytes(), &numbers)
}
