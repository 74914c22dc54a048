//! The scripts of the eight sessions.

ghost use Rattle.std.specs.Prelude.{◌≡◌, ◌≤◌, ◌∷◌, [], ◌++◌, ℕ, List, IfOk, OnOk, vec_len};
ghost use Rattle.liq_types.specs.declared.requests.Request.{Request};
ghost use Rattle.liq_text_scripts.specs.BySession.{scripts_of};

use liq_sessions::{Requests, Script};
use liq_text::read_session_line;
use liq_text_gather::{Gatherer, Stop};
use liq_types::{NoMemory, Request};
use std::alloc::{AllocError, Global};
use std::marker::Model;

/// How many sessions there are. They are numbered from 1.
pub const SESSIONS: u8 = 8;

/// A script without requests for each session.
pub fn blank(alloc: Global) -> Result<Vec<Script>, AllocError>
    ensures { IfOk result (λ scripts. scripts.items ≡ scripts_of []) }
{
    let mut scripts = Vec::with_capacity(alloc, usize::from(SESSIONS))?;
    for before in 0..SESSIONS {
        scripts.push(Script {
            session: before + 1,
            requests: Requests::new(alloc),
        })?;
    }
    Ok(scripts)
}

/// The scripts of the eight sessions, in order. Contracts see the list of them.
#[derive(Drop)]
pub(crate) struct Scripts {
    list: Vec<Script>,
}

impl Model for Scripts {
    ghost use Rattle.std.specs.Prelude.{List, ◌≡◌, vec_len};
    ghost use Rattle.liq_sessions.specs.declared.script.Script.{Script};
    ghost use Rattle.liq_text_scripts.specs.declared.scripts.TheConstants.{SESSIONS};

    ghost Value = { List Script };

    ghost view = { λ s. s.list.items };

    ghost invariant = { λ s. vec_len s.list ≡ SESSIONS };
}

impl Scripts {
    /// Eight scripts, one a session, in order.
    pub(crate) fn of(list: Vec<Script>) -> Scripts
        requires { vec_len list ≡ SESSIONS }
        ensures { result ≡ list.items }
    {
        Scripts { list }
    }

    /// The scripts as a list, by session.
    pub(crate) fn into_list(self) -> Vec<Script>
        ensures { result.items ≡ self }
    {
        self.list
    }

    /// Puts a request behind those of its session.
    fn add(&mut self, session: u8, request: Request) -> Result<(), NoMemory>
        requires { (1 ≤ session) × (session ≤ SESSIONS) }
        ensures { OnOk result ((asked : List (ℕ × Request)) → self.old ≡ scripts_of asked
            → self.new ≡ scripts_of (asked ++ (session, request) ∷ [])) }
    {
        self.list[usize::from(session - 1)].requests.push(request)
    }
}

impl Gatherer for Scripts {
    ghost use Rattle.liq_text_scripts.specs.Asked.{Asks};
    ghost use Rattle.liq_text_scripts.specs.BySession.{scripts_of};
    ghost use Rattle.liq_text.proofs.LineLengths.{session_request_short};

    type Item = (u8, Request);

    ghost says = { Asks };

    ghost holds = { λ scripts asked. scripts ≡ scripts_of asked };

    fn keep(&mut self, line: &[u8], number: u64) -> Result<(), Stop> {
        match read_session_line(line) {
            Ok((session, request)) => {
                self.add(session, request)?;
                Ok(())
            }
            Err(_) => Err(Stop::BadLine(number)),
        }
    }

    ghost short = { λ line asked says. session_request_short line asked.0 asked.1 says };
}
