//! Commands to which the market gives their numbers.

ghost use Rattle.std.specs.Prelude.{◌≡◌, MatchResult, Ok, Err, IfOk, OnErr, OnOk};
ghost use Rattle.liq_types.specs.State.{State};
ghost use Rattle.liq_types.specs.declared.requests.Request.TheVariants.{Do};
ghost use Rattle.liq_core.specs.Core.{StandsFor};
ghost use Rattle.liq_wire.specs.Fields.{HasHints};
ghost use Rattle.liq_batch.specs.Batch.{AnswersItem, call_in, command_in};
ghost use Rattle.liq_batch.specs.Numbering.{Numbers, numbered_in, numbering};

use crate::batch::{Batch, Command96, Fault};
use liq_market::Market;
use liq_replies96::{Reply96, encode};
use liq_types::{Command, Reply};
use liq_wire::{BadPlace, decode};

/// Answers commands in order, each under its client's next number, which is written into it: the
/// commands are then what [`do_all`](crate::do_all) takes. A client that has used the greatest
/// number has no next one: its command keeps 0, and is out of turn. A number that is not 0 before
/// fits no command. It stops where `do_all` does, and then no number is written.
pub fn next_all(market: &mut Market, commands: &mut [Command96], replies: &mut [Reply96]) -> Batch
    ensures { (s : State) → StandsFor market.old.core s → Numbers
        s commands.old commands.new result market.old market.new replies.old replies.new }
{
    let most = commands.len().min(replies.len());
    for done in 0..most {
        match next_one(market, &mut commands[done]) {
            Ok(reply) => replies[done] = encode(&reply),
            Err(fault) => return Batch::stopped(done, fault, replies),
        }
    }
    Batch::over(most)
}

fn next_one(market: &mut Market, command: &mut Command96) -> Result<Reply, Fault>
    ensures answered { (s : State) → StandsFor market.old.core s
        → AnswersItem numbering s command.old result market.old market.new }
    ensures numbered { (s : State) → StandsFor market.old.core s → OnOk result
        (command_in command.new ≡ numbered_in s (call_in command.old)) }
    ensures stays { OnErr result (command.new ≡ command.old) }
{
    let unnumbered = unnumbered(command)?;
    let (number, answer) = market.answer_next(unnumbered.client, &unnumbered.call);
    let reply = answer?;
    let numbered = Command {
        number,
        ..unnumbered
    };
    command.bytes = liq_wire::encode(&numbered);
    Ok(reply)
}

/// Where the number of a command begins.
const NUMBER_AT: u8 = 8;

/// The command that has no number yet, or where the first field begins that fits none.
fn unnumbered(command: &Command96) -> Result<Command, BadPlace>
    ensures call { MatchResult result
        (λ c. call_in command.now ≡ Ok (Do c)) (λ bad. call_in command.now ≡ Err bad.place) }
    ensures hints { IfOk result (λ c. HasHints c.call) }
{
    match decode(&command.bytes) {
        Ok(command) if command.number == 0 => Ok(command),
        Ok(_) => Err(BadPlace { place: NUMBER_AT }),
        Err(bad) => Err(bad),
    }
}
