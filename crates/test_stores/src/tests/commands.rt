//! Commands, as lines.

ghost use Rattle.std.specs.Prelude.{◌≡◌, All, IfOk, false};
ghost use Rattle.liq_types.specs.declared.requests.Command.{Command};
ghost use Rattle.liq_types.specs.Verbs.{is_rotate};

use liq_text::read_line;
use liq_types::{Call, Command, Request};
use std::alloc::{AllocError, Global};
use std::test::Fail;

/// The lines of these calls as commands of client 1, numbered from 1.
pub fn numbered(alloc: Global, calls: &str) -> Result<String, AllocError> {
    let mut lines = String::new(alloc);
    for (number, call) in calls.lines().enumerate() {
        writeln!(lines, "1 {} {call}", number as u64 + 1)?;
    }
    Ok(lines)
}

/// The commands of these lines, of which none is a rotation.
pub fn commands_of(alloc: Global, lines: &str) -> Result<Vec<Command>, Fail>
    ensures { IfOk result (λ commands. All (λ (c : Command). is_rotate c.call
        ≡ false) commands.items) }
{
    let mut commands = Vec::new(alloc);
    for line in lines.lines() {
        commands.push(command_of(line.as_bytes())?)?;
    }
    Ok(commands)
}

fn command_of(line: &[u8]) -> Result<Command, Fail>
    ensures { IfOk result (λ c. is_rotate c.call ≡ false) }
{
    match read_line(line)? {
        Request::Do(command) => match command.call {
            Call::Rotate => Err(Fail::from("a rotation")),
            _ => Ok(command),
        },
        Request::Ask(_) => Err(Fail::from("no command")),
    }
}
