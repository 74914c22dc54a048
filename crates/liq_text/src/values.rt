//! What one word stands for.

ghost use Rattle.std.specs.Prelude.{ℕ, ◌≡◌, ◌<◌, ◌≤◌, ◌+◌, ◌*◌, ◌^◌, ◌↔◌, length, slice_index, IsTrue, IfSome, MatchOption, Some, decimal};
ghost use Rattle.std.specs.Char.{digit_value};
ghost use Rattle.liq_text.specs.Reading.{number_of, account_of, hint_of};

/// The number that a word stands for: none exactly where the word is not how a number below 2^64 is
/// written, without a sign and without leading zeros.
pub fn read_number(word: &[u8]) -> Option<u64>
    ensures number { IfSome result (λ n. word.now ≡ decimal n) }
    ensures only { (n : ℕ) → n < 2 ^ 64 → word.now ≡ decimal n → result ≡ Some n }
    ensures value { result ≡ number_of word.now }
{
    number(word)
}

/// The account that a word stands for: none exactly where the word is not how a number below 2^32
/// is written, without a sign and without leading zeros.
pub fn read_account(word: &[u8]) -> Option<u32>
    ensures account { IfSome result (λ a. word.now ≡ decimal a) }
    ensures only { (a : ℕ) → a < 2 ^ 32 → word.now ≡ decimal a → result ≡ Some a }
    ensures value { result ≡ account_of word.now }
{
    account(word)
}

pub(crate) fn number(word: &[u8]) -> Option<u64>
    ensures { result ≡ number_of word.now }
{
    // Only the one way in which a number is written stands for it: no sign and no leading zero.
    if word.is_empty() || has_leading_zero(word) {
        return None;
    }
    let mut number = 0;
    for byte in word {
        number = with_digit(number, *byte)?;
    }
    Some(number)
}

fn has_leading_zero(word: &[u8]) -> bool
    ensures { IsTrue result ↔ (1 < length word.now) × (slice_index word.now 0 ≡ 48) }
{
    word.len() > 1 && word[0] == b'0'
}

/// The number with one digit more behind it.
fn with_digit(number: u64, byte: u8) -> Option<u64>
    ensures { MatchOption result ((digit_value byte < 10) → 2 ^ 64 ≤ number * 10 + digit_value byte)
        (λ more. (digit_value byte < 10) × (more ≡ number * 10 + digit_value byte)
        × (more < 2 ^ 64)) }
{
    let digit = char::from(byte).to_digit(10)?;
    number.checked_mul(10)?.checked_add(u64::from(digit))
}

#[tactic(auto, unfolding(crate::specs::Reading::account_of))]
pub(crate) fn account(word: &[u8]) -> Option<u32>
    ensures { result ≡ account_of word.now }
{
    u32::try_from(number(word)?).ok()
}

#[tactic(auto, unfolding(crate::specs::Reading::hint_of))]
pub(crate) fn hint(word: &[u8]) -> Option<Option<u32>>
    ensures { result ≡ hint_of word.now }
{
    if word == b"-".as_slice() {
        return Some(None);
    }
    match account(word)? {
        u32::MAX => Some(None),
        account => Some(Some(account)),
    }
}
