//! The command line as clap is told of it.

ghost use Rattle.std.specs.Prelude.{◌≡◌, IfOk, false};
ghost use Rattle.clap.specs.Words.{app_of, new_app, with_subcommand};
ghost use Rattle.clap.specs.declared.builder.command.Command.TheViews.{out-Command};
ghost use Rattle.liq_word_arguments.specs.Line.{base, line, load};

use clap::{Arg, Command};
use std::alloc::{AllocError, Global};

/// One command with a subcommand for each word. The words of the command line stand behind the
/// program's name, and nothing is added to what they may be.
pub fn line<'a>(alloc: Global) -> Result<Command<'a>, AllocError>
    ensures { IfOk result (λ command. app_of command ≡ line) }
{
    let line = with_alone(alloc, base(alloc), "run")?;
    let line = with_alone(alloc, line, "serve")?;
    let line = with_alone(alloc, line, "staking")?;
    let line = with_alone(alloc, line, "rewards")?;
    let line = with_alone(alloc, line, "state")?;
    let line = with_alone(alloc, line, "audit")?;
    let line = with_alone(alloc, line, "report")?;
    let line = with_alone(alloc, line, "follow")?;
    line.subcommand(load(alloc)?)
}

/// The command without a word.
fn base<'a>(alloc: Global) -> Command<'a>
    ensures { app_of result ≡ base }
{
    Command::new(alloc, "liq")
        .no_binary_name(true)
        .disable_help_flag(true)
        .disable_help_subcommand(true)
        .subcommand_required(true)
}

/// One more word, which stands alone.
fn with_alone<'a>(
    alloc: Global,
    line: Command<'a>,
    name: &'a str,
) -> Result<Command<'a>, AllocError>
    ensures { IfOk result (λ command. app_of command ≡ with_subcommand (app_of line.entry)
        (new_app name.entry.now).top) }
{
    line.subcommand(Command::new(alloc, name))
}

/// The word `gen`, with a seed and a count.
fn load<'a>(alloc: Global) -> Result<Command<'a>, AllocError>
    ensures app { IfOk result (λ command. app_of command ≡ load) }
    ensures local { IfOk result (λ command. (out-Command command).has_globals ≡ false) }
{
    let seed = Arg::new(alloc, "seed").required(true);
    let count = Arg::new(alloc, "count").required(true);
    Command::new(alloc, "gen").arg(seed)?.arg(count)
}
