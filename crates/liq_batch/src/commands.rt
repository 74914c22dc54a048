//! A batch of commands in their bytes, which have their numbers.

ghost use Rattle.liq_types.specs.State.{State};
ghost use Rattle.liq_core.specs.Core.{StandsFor};
ghost use Rattle.liq_batch.specs.Batch.{Answered, AnswersItem, doing};

use crate::batch::{Batch, Command96, Fault};
use liq_market::Market;
use liq_replies96::{Reply96, encode};
use liq_types::{Reply, Request};

/// Answers commands in order, as long as there are places for replies. It stops at the first that
/// is none, or for which there is no memory: that one changes nothing, and the reply in its place
/// says why. Behind it no place is written.
pub fn do_all(market: &mut Market, commands: &[Command96], replies: &mut [Reply96]) -> Batch
    ensures { (s : State) → StandsFor market.old.core s → Answered doing
        s commands.now result market.old market.new replies.old replies.new }
{
    let most = commands.len().min(replies.len());
    for done in 0..most {
        match do_one(market, &commands[done]) {
            Ok(reply) => replies[done] = encode(&reply),
            Err(fault) => return Batch::stopped(done, fault, replies),
        }
    }
    Batch::over(most)
}

fn do_one(market: &mut Market, command: &Command96) -> Result<Reply, Fault>
    ensures { (s : State) → StandsFor market.old.core s
        → AnswersItem doing s command.now result market.old market.new }
{
    let command = command.read()?;
    Ok(market.answer(&Request::Do(command))?)
}
