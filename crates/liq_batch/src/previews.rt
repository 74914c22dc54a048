//! What commands would be answered, each if it came alone.

ghost use Rattle.liq_types.specs.State.{State};
ghost use Rattle.liq_core.specs.Core.{StandsFor};
ghost use Rattle.liq_batch.specs.Batch.{Answered, AnswersItem, previewing};

use crate::batch::{Batch, Command96, Fault};
use liq_market::Market;
use liq_replies96::{Reply96, encode};
use liq_types::Reply;

/// Gives the reply that each command would have if it came alone, as long as there are places for
/// replies. Nothing changes. It stops where [`do_all`](crate::do_all) would: but memory is wanted
/// only for a command for which a list of troves is planned.
pub fn preview_all(market: &Market, commands: &[Command96], replies: &mut [Reply96]) -> Batch
    ensures { (s : State) → StandsFor market.now.core s → Answered previewing
        s commands.now result market.now market.now replies.old replies.new }
{
    let most = commands.len().min(replies.len());
    for done in 0..most {
        match preview_one(market, &commands[done]) {
            Ok(reply) => replies[done] = encode(&reply),
            Err(fault) => return Batch::stopped(done, fault, replies),
        }
    }
    Batch::over(most)
}

fn preview_one(market: &Market, command: &Command96) -> Result<Reply, Fault>
    ensures { (s : State) → StandsFor market.now.core s
        → AnswersItem previewing s command.now result market.now market.now }
{
    let command = command.read()?;
    Ok(market.preview(&command)?)
}
