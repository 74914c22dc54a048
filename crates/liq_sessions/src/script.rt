//! What a session asks: its requests, in their order, under its number.

ghost use Rattle.std.specs.Prelude.{◌≡◌, [], ◌∷◌, ◌++◌, ◌↔◌, IsTrue, length, MatchOption, OnOk, OnErr};

use crate::waiting::Waiting;
use liq_types::{Command, NoMemory, Request};
use std::alloc::Global;
use std::marker::Model;

/// The most requests of one session's script.
pub const REQUESTS_MOST: usize = 1_000_000;

/// Requests in the order in which they are asked. Contracts see the list of them.
#[derive(Drop)]
pub struct Requests {
    waiting: Vec<Waiting>,
    // Those among them, in their order.
    commands: Vec<Command>,
}

impl Model for Requests {
    ghost use Rattle.std.specs.Prelude.{List, ◌≡◌, length};
    ghost use Rattle.liq_types.specs.declared.requests.Request.{Request};
    ghost use Rattle.liq_sessions.specs.Waiting.{commands_among, joined};

    ghost Value = { List Request };

    ghost view = { λ r. joined r.waiting.items r.commands.items };

    ghost invariant = { λ r. commands_among r.waiting.items ≡ length r.commands.items };
}

impl Requests {
    /// No requests.
    pub fn new(alloc: Global) -> Requests
        ensures { result ≡ [] }
    {
        Requests {
            waiting: Vec::new(alloc),
            commands: Vec::new(alloc),
        }
    }

    /// One more request, behind the others. Without memory they stay.
    pub fn push(&mut self, request: Request) -> Result<(), NoMemory>
        ensures ok { OnOk result (self.new ≡ self.old ++ request ∷ []) }
        ensures err { OnErr result (self.new ≡ self.old) }
    {
        if self.waiting.try_reserve(1).is_err() {
            return Err(NoMemory);
        }
        match request {
            Request::Ask(query) => self.waiting.push_reserved(Waiting::Ask(query)),
            Request::Do(command) => {
                if self.commands.push(command).is_err() {
                    return Err(NoMemory);
                }
                self.waiting.push_reserved(Waiting::NextCommand);
            }
        }
        Ok(())
    }

    /// How many there are.
    pub fn len(&self) -> usize
        ensures { result ≡ length self.now }
    {
        self.waiting.len()
    }

    /// Whether there is none.
    pub fn is_empty(&self) -> bool
        ensures { IsTrue result ↔ (self.now ≡ []) }
    {
        self.len() == 0
    }

    /// The requests, to be asked one after the other.
    pub(crate) fn into_asked(self) -> Asked
        ensures { result ≡ self }
    {
        let Requests {
            mut waiting,
            mut commands,
        } = self;
        waiting.reverse();
        commands.reverse();
        Asked {
            later: waiting,
            commands,
        }
    }
}

/// Requests that are asked one after the other. Contracts see the list of those that are left.
#[derive(Drop)]
pub(crate) struct Asked {
    // What is left, in reverse: of each of both the next one stands last.
    later: Vec<Waiting>,
    commands: Vec<Command>,
}

impl Model for Asked {
    ghost use Rattle.std.specs.Prelude.{List, ◌≡◌, length, reverse};
    ghost use Rattle.liq_types.specs.declared.requests.Request.{Request};
    ghost use Rattle.liq_sessions.specs.Waiting.{commands_among, joined};

    ghost Value = { List Request };

    ghost view = { λ a. joined (reverse a.later.items) (reverse a.commands.items) };

    ghost invariant = { λ a. commands_among (reverse a.later.items)
        ≡ length (reverse a.commands.items) };
}

impl Asked {
    /// The next request, which is taken out. Each time half of the memory is free, it is given
    /// back.
    pub(crate) fn next(&mut self) -> Option<Request>
        ensures { MatchOption result ((self.old ≡ []) × (self.new ≡ [])) (λ request. self.old
            ≡ request ∷ self.new) }
    {
        match take_last(&mut self.later)? {
            Waiting::Ask(query) => Some(Request::Ask(query)),
            Waiting::NextCommand => match take_last(&mut self.commands) {
                Some(command) => Some(Request::Do(command)),
                None => unreachable!(),
            },
        }
    }
}

/// Takes the last one out of a list. Each time half of its memory is free it is given back.
fn take_last<T: Copy>(list: &mut Vec<T>) -> Option<T>
    ensures { MatchOption result ((list.old.items ≡ []) × (list.new.items ≡ []))
        (λ last. list.old.items ≡ list.new.items ++ last ∷ []) }
{
    let last = list.pop()?;
    let left = list.len();
    if left <= list.capacity() / 2 {
        list.shrink_to(left);
    }
    Some(last)
}

/// The requests of a session, from 1 to 8.
#[derive(Drop)]
pub struct Script {
    pub session: u8,
    pub requests: Requests,
}
