//! The place that is told of a field: how many bytes stand before it.

ghost use Rattle.std.specs.Prelude.{◌≡◌, ◌-◌, length};

/// Where the last bytes begin, of `end` bytes in all.
pub fn place_of(end: u64, last: &[u8]) -> u64
    ensures { result ≡ end - length last.now }
{
    end.saturating_sub(last.len() as u64)
}

/// Where a wallet is told in which there is nothing: at its LUSD, behind the 4 bytes of its account
/// and the 8 of its collateral. `row` are the last bytes, from the first of its row on.
pub fn place_of_empty_wallet(end: u64, row: &[u8]) -> u64
    ensures { result ≡ end - (length row.now - 12) }
{
    end.saturating_sub(row.len().saturating_sub(12) as u64)
}
