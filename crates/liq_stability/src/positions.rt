//! What a deposit is worth: its balance, and what it has gained since its owner's last operation.

ghost use Rattle.std.specs.Prelude.{◌≡◌, ◌*◌, ◌^◌, ◌≤◌, IsTrue, min, slice_index};
ghost use Rattle.std.specs.List.{AllByRecursion};
ghost use Rattle.liq_num.specs.Quotient.{floor_of};
ghost use Rattle.liq_types.specs.Soundness.{is_product, is_sound_deposit};
ghost use Rattle.liq_stability.specs.Position.{position_by, balance_by, gain_by, mark_in};
ghost use Rattle.liq_stability.specs.Words.{words_in};

use crate::words::PoolWords;
use liq_num::mul_div;
use liq_types::Deposit;
use liq_types::amounts::{LIM, OFFSET_MOST, P_LEAST, P_OPENING};

/// How many scales above that of its mark a deposit still counts at.
const SCALES_READ: u64 = 3;

/// Balance (micro-LUSD) and gain (gwei) of a deposit, by the pool's words and the sums of the
/// deposit's epoch at its scale and the next three. Neither is more than the pool has.
pub fn position(deposit: &Deposit, words: &PoolWords, four: &[u128; 4]) -> (u64, u64)
    requires amount { deposit.now.amount ≤ LIM }
    requires deposit { IsTrue (is_sound_deposit (words.now.epoch, words.now.scale)
        (slice_index four.now 0) deposit.now) }
    requires product { IsTrue (is_product words.now.p) }
    requires sums { AllByRecursion (λ sum. sum ≤ OFFSET_MOST * P_OPENING) four.now }
    ensures { result ≡ position_by deposit.now words.now (slice_index four.now) }
{
    let balance = balance(deposit, words).min(u128::from(words.total));
    let gain = gain(deposit, four).min(u128::from(words.coll));
    (balance as u64, gain as u64)
}

/// What is left of a deposit: nothing once its epoch is over, or more than three scales on.
fn balance(deposit: &Deposit, words: &PoolWords) -> u128
    requires amount { deposit.now.amount ≤ LIM }
    requires mark { IsTrue (is_product deposit.now.p) }
    requires product { IsTrue (is_product words.now.p) }
    ensures { result ≡ balance_by deposit.now.amount (mark_in deposit.now) (words_in words.now) }
{
    let rise = words.scale.saturating_sub(deposit.scale);
    if words.epoch == deposit.epoch && rise <= SCALES_READ {
        part_of(deposit, words.p, rise)
    } else {
        0
    }
}

/// What a deposit has gained.
fn gain(deposit: &Deposit, four: &[u128; 4]) -> u128
    requires amount { deposit.now.amount ≤ LIM }
    requires mark { IsTrue (is_product deposit.now.p) }
    requires own { deposit.now.sum ≤ slice_index four.now 0 }
    requires sums { AllByRecursion (λ sum. sum ≤ OFFSET_MOST * P_OPENING) four.now }
    ensures { result ≡ gain_by deposit.now.amount (mark_in deposit.now) (slice_index four.now) }
{
    part_of(deposit, four[0] - deposit.sum, 0)
        + part_of(deposit, four[1], 1)
        + part_of(deposit, four[2], 2)
        + part_of(deposit, four[3], 3)
}

/// What a deposit has of a number that is told of a whole one, so many scales above its mark,
/// rounded down.
fn part_of(deposit: &Deposit, number: u128, scales: u64) -> u128
    requires amount { deposit.now.amount ≤ LIM }
    requires mark { IsTrue (is_product deposit.now.p) }
    requires number { number ≤ OFFSET_MOST * P_OPENING }
    requires scales { scales ≤ SCALES_READ }
    ensures part { result ≡ floor_of deposit.now.amount number (deposit.now.p * 10 ^ (9 * scales)) }
    ensures within { result * P_LEAST ≤ LIM * (OFFSET_MOST * P_OPENING) }
{
    let part = mul_div(u128::from(deposit.amount), number, deposit.p);
    if part == 0 || scales == 0 {
        return part;
    }
    part / 10_u128.pow(9 * scales as u32)
}
