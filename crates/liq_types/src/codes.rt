//! The numbers that a reply shows: a refusal's code and values, and how many values an accepted
//! command shows.

ghost use Rattle.std.specs.Prelude.{◌≡◌, ◌≤◌, take, slice_index};
ghost use Rattle.liq_types.specs.Codes.{code_of, refusal_numbers, value_counts};

use crate::replies::Refusal;

/// A refusal's code and the values that it carries, in front of noughts, and how many numbers these
/// are.
pub fn numbers_of(refusal: &Refusal) -> ([u128; 6], usize)
    ensures numbers { take result.1 result.0 ≡ refusal_numbers refusal.now }
    ensures few { (1 ≤ result.1) × (result.1 ≤ 6) }
    ensures code { slice_index result.0 0 ≤ 81 }
{
    match *refusal {
        Refusal::PriceRange { price } => ([10, price.into(), 0, 0, 0, 0], 2),
        Refusal::AmountZero => ([11, 0, 0, 0, 0, 0], 1),
        Refusal::AmountLimit { sum, limit } => ([12, sum, limit.into(), 0, 0, 0], 3),
        Refusal::AccountRange { value } => ([13, value.into(), 0, 0, 0, 0], 2),
        Refusal::ShortCollateral { need, have } => ([14, need.into(), have.into(), 0, 0, 0], 3),
        Refusal::ShortTokens { need, have } => ([15, need.into(), have.into(), 0, 0, 0], 3),
        Refusal::TroveExists { account } => ([20, account.into(), 0, 0, 0, 0], 2),
        Refusal::NoTrove { account } => ([21, account.into(), 0, 0, 0, 0], 2),
        Refusal::FeeBound { bound, least } => ([22, bound.into(), least.into(), 0, 0, 0], 3),
        Refusal::FeeOver { left, right } => ([23, left, right, 0, 0, 0], 3),
        Refusal::NetDebtLow { net, least } => ([24, net.into(), least.into(), 0, 0, 0], 3),
        Refusal::RatioLow { left, right } => ([25, left, right, 0, 0, 0], 3),
        Refusal::SystemRatioLow { left, right } => ([26, left, right, 0, 0, 0], 3),
        Refusal::RecoveryForbids { left, right } => ([27, left, right, 0, 0, 0], 3),
        Refusal::RatioFalls { left, right } => ([28, left, right, 0, 0, 0], 3),
        Refusal::BothWays { first, second } => ([29, first.into(), second.into(), 0, 0, 0], 3),
        Refusal::NoChange => ([30, 0, 0, 0, 0, 0], 1),
        Refusal::LastTrove { troves } => ([31, troves.into(), 0, 0, 0, 0], 2),
        Refusal::NoDeposit { account } => ([40, account.into(), 0, 0, 0, 0], 2),
        Refusal::TroveUnder {
            account,
            left,
            right,
        } => ([41, account.into(), left, right, 0, 0], 4),
        Refusal::NoGain { account } => ([42, account.into(), 0, 0, 0, 0], 2),
        Refusal::NotLiquidatable {
            coll,
            debt,
            price,
            total_coll,
            total_debt,
        } => (
            [
                50,
                coll.into(),
                debt.into(),
                price.into(),
                total_coll.into(),
                total_debt.into(),
            ],
            6,
        ),
        Refusal::PoolTooSmall { total, debt } => ([51, total.into(), debt.into(), 0, 0, 0], 3),
        Refusal::SumLimit { sum } => ([52, sum, 0, 0, 0, 0], 2),
        Refusal::Bootstrap { minute, limit } => ([60, minute.into(), limit.into(), 0, 0, 0], 3),
        Refusal::SystemUnder { left, right } => ([61, left, right, 0, 0, 0], 3),
        Refusal::NothingRedeemed { amount, net } => ([62, amount.into(), net.into(), 0, 0, 0], 3),
        Refusal::FeeEatsAll { fee, drawn } => ([63, fee.into(), drawn.into(), 0, 0, 0], 3),
        Refusal::NoSurplus { account } => ([64, account.into(), 0, 0, 0, 0], 2),
        Refusal::OutOfTurn { expected } => ([70, expected.into(), 0, 0, 0, 0], 2),
        Refusal::JournalFull { records } => ([81, records.into(), 0, 0, 0, 0], 2),
    }
}

/// The code with which a refusal is written, and a record that is refused is told.
pub fn code_of(refusal: &Refusal) -> u8
    ensures { result ≡ code_of refusal.now }
{
    let (numbers, _) = numbers_of(refusal);
    numbers[0] as u8
}

// How many values the reply to a kind of command shows.
const VALUE_COUNTS: [usize; 17] = [0, 0, 1, 0, 0, 0, 2, 3, 2, 2, 2, 2, 6, 4, 4, 1, 1];

/// How many values the reply to a kind of command shows; 0 for a kind that there is not.
pub fn value_count(kind: u8) -> usize
    ensures count { result ≡ slice_index value_counts kind }
    ensures most { result ≤ 6 }
{
    match VALUE_COUNTS.get(kind as usize) {
        Some(count) => *count,
        None => 0,
    }
}
