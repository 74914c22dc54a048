//! What a query asks.

ghost use Rattle.std.specs.Prelude.{◌≡◌};
ghost use Rattle.liq_text.specs.Reading.{pieces_of, query_of};

use crate::values::account;
use liq_types::Query;

/// The query that words spell. Each name is looked for with the space behind it, so that no word's
/// end has to be found first.
pub(crate) fn parse_query(words: &[u8]) -> Option<Query>
    ensures { result ≡ query_of (pieces_of words.now) }
{
    if let Some(word) = words.strip_prefix(b"wallet ") {
        return Some(Query::Wallet(account(word)?));
    }
    if let Some(word) = words.strip_prefix(b"trove ") {
        return Some(Query::Trove(account(word)?));
    }
    if let Some(word) = words.strip_prefix(b"deposit ") {
        return Some(Query::Deposit(account(word)?));
    }
    if let Some(word) = words.strip_prefix(b"next_number ") {
        return Some(Query::NextNumber(account(word)?));
    }
    if words == b"pools".as_slice() {
        return Some(Query::Pools);
    }
    if words == b"system".as_slice() {
        return Some(Query::System);
    }
    None
}
