//! The scripts of the sessions, read from the lines of a source.

ghost use Rattle.std.specs.Prelude.{◌≡◌, ◌≤◌, [], ℕ, List, Some, length, IsOkUnless, IfOk, sum_by};
ghost use Rattle.std.specs.List.{AllZip};
ghost use Rattle.liq_types.specs.declared.requests.Request.{Request};
ghost use Rattle.liq_outside.specs.Faults.{Rose};
ghost use Rattle.liq_text_lines.specs.Lines.{lines_in};
ghost use Rattle.liq_text_lines.specs.Reading.{taken_most, ReadsAtMost};
ghost use Rattle.liq_text_scripts.specs.Asked.{Asks};
ghost use Rattle.liq_text_scripts.specs.BySession.{scripts_of};
ghost use Rattle.liq_text_scripts.specs.Gathering.{Gathers, ReadCause};

use crate::scripts::{Scripts, blank};
use liq_outside::Source;
use liq_sessions::Script;
use liq_text_gather::{Stop, gather_into};
use liq_types::NoMemory;
use liq_types::amounts::LINES_MOST;
use std::alloc::Global;

/// Reads the source to its end, each line a session and its request, and gives the scripts of the
/// eight sessions, in order. It stops at the first of these:
///
/// - [`Stop::BadLine`]: the line of this number, counted from 1, asks nothing: it spells no
///   session from 1 to 8 and request, or one that the protocol has not yet;
/// - [`Stop::ReadFault`]: the source met a fault;
/// - [`Stop::NoMemory`]: there was no memory;
/// - [`Stop::Limit`]: a line behind the last that is answered begins.
pub fn read_scripts<S: Source>(alloc: Global, input: &mut S) -> Result<Vec<Script>, Stop>
    ensures read { Gathers result (S.at input.old).left (S.at input.new).left }
    // All scripts together have no more requests than there are lines.
    ensures few { IfOk result
        (λ scripts. sum_by (λ script. length script.requests) scripts.items ≤ LINES_MOST) }
    // At most as many lines are taken from the source as are read, and what one read asks for.
    ensures takes { ReadsAtMost (taken_most LINES_MOST) (S.at input.old).left
        (S.at input.new).left }
    ensures source { ReadCause result (S.at input.old).faults (S.at input.new).faults }

    // Where each line asks something, none is too many and the source meets no fault, memory alone
    // can be missing.
    ensures complete { (bytes : List ℕ) → (S.at input.old).left ≡ Some bytes
        → (asked : List (ℕ × Request)) → AllZip Asks (lines_in bytes) asked
        → length asked ≤ LINES_MOST → (Rose (S.at input.old).faults (S.at input.new).faults → ⊥)
        → IsOkUnless result Stop.NoMemory }
{
    let mut scripts = nothing_asked(alloc)?;
    gather_into(alloc, &mut scripts, input)?;
    Ok(scripts.into_list())
}

/// A blank script for each session.
fn nothing_asked(alloc: Global) -> Result<Scripts, NoMemory>
    ensures { IfOk result (λ scripts. scripts ≡ scripts_of []) }
{
    Ok(Scripts::of(blank(alloc)?))
}
