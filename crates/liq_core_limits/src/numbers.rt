//! Which of a client's commands acts.

ghost use Rattle.std.specs.Prelude.{◌≡◌};
ghost use Rattle.liq_core_limits.specs.Numbers.{kept_by};

use liq_types::{Client, Done, Refusal};

/// The reply that was kept of a command that comes again; nothing, where the number is the client's
/// next one. Any other number is refused.
pub fn repeated_reply(client: &Client, number: u64) -> Result<Option<Done>, Refusal>
    ensures { result ≡ kept_by client.now number }
{
    if number == client.last && number != 0 {
        return Ok(Some(client.kept));
    }
    if number == 0 || number - 1 != client.last {
        let expected = client.last.saturating_add(1);
        return Err(Refusal::OutOfTurn { expected });
    }
    Ok(None)
}
