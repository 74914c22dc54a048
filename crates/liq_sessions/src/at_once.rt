//! Sessions that run at once: a thread for each, but for the first.

ghost use Rattle.std.specs.Prelude.{◌≡◌, ◌≤◌, All, IfOk, IfErr, vec_capacity, vec_len, length, []};
ghost use Rattle.std.specs.List.{AllZip};
ghost use Rattle.std.specs.Thread.{IsSync};
ghost use Rattle.liq_sessions.specs.Sessions.{HasRun, HasRoom, IsReady};

use crate::done::{SessionDone, Work};
use crate::gate::Gate;
use crate::script::REQUESTS_MOST;
use crate::session::run_session;
use liq_types::{Desk, Hinter, Reply};
use std::alloc::{AllocError, Global};
use std::sync::Wait;
use std::thread::{Threads, join};

/// Runs the scripts of sessions at once, each in a thread of its own: each request in its turn,
/// with the hint that the session's hinter finds for it, and with the gate before and behind each
/// call. The seats are those of the desk, and a script has at most [`REQUESTS_MOST`] requests. Each
/// work comes back at its place with the replies that it got. All memory is taken before the first
/// call: where there is none the works come back as they were. No thread is made for a script
/// without requests, nor for the first session, which runs in this one.
pub fn run_sessions<
    K: Desk + Sync,
    G: Gate + Sync,
    H: Hinter + Drop + Send,
    R: Threads + Wait + Sync,
>(
    rt: &R,
    alloc: Global,
    desk: &K,
    gate: &G,
    work: Vec<Work<K, H>>,
) -> Result<Vec<SessionDone<K, H>>, Vec<Work<K, H>>>
where
    K::Seat: Drop + Send,
    requires belong { All (λ w. K.belongs desk.now w.seat) work.items }
    requires short { All (λ w. length w.script.requests ≤ REQUESTS_MOST) work.items }
    ensures done { IfOk result (λ done. AllZip (HasRun (K.belongs desk.now) K.number K.own
        K.knows_end K.faulted) work.items done.items) }
    ensures back { IfErr result (λ back. back.items ≡ work.items) }
{
    let Ok(replies) = reply_lists(alloc, work.as_slice()) else {
        return Err(work);
    };
    let Ok(done) = Vec::with_capacity(alloc, work.len()) else {
        return Err(work);
    };
    Ok(run_all(rt, desk, gate, work, replies, done))
}

/// An empty list for the replies of each work, with room for all of them.
fn reply_lists<K: Desk, H: Drop>(
    alloc: Global,
    work: &[Work<K, H>],
) -> Result<Vec<Vec<Reply>>, AllocError>
where
    K::Seat: Drop,
    ensures { IfOk result (λ lists. AllZip HasRoom work.now lists.items) }
{
    let mut lists = Vec::with_capacity(alloc, work.len())?;
    for one in work {
        lists.push(Vec::with_capacity(alloc, one.script.requests.len())?)?;
    }
    Ok(lists)
}

/// Runs the last of the works in a new thread, and those before it in this one. Where there are
/// none before it, or it has nothing to ask, it runs in this one too. It takes no memory: there is
/// room for the replies of each work, and for what each comes to.
fn run_all<K: Desk + Sync, G: Gate + Sync, H: Hinter + Drop + Send, R: Threads + Wait + Sync>(
    rt: &R,
    desk: &K,
    gate: &G,
    mut work: Vec<Work<K, H>>,
    mut replies: Vec<Vec<Reply>>,
    done: Vec<SessionDone<K, H>>,
) -> Vec<SessionDone<K, H>>
where
    K::Seat: Drop + Send,
    requires ready { AllZip (IsReady (K.belongs desk.now)) work.items replies.items }
    requires fresh { done.items ≡ [] }
    requires room { vec_len work ≤ vec_capacity done }
    ensures done { AllZip (HasRun (K.belongs desk.now) K.number K.own K.knows_end K.faulted)
        work.items result.items }
    ensures room { vec_capacity result ≡ vec_capacity done }
{
    let Some(last) = work.pop() else {
        return done;
    };
    let Some(list) = replies.pop() else {
        unreachable!();
    };
    if work.is_empty() || last.script.requests.is_empty() {
        let mut all = run_all(rt, desk, gate, work, replies, done);
        all.push_reserved(run_session(rt, desk, gate, last, list));
        return all;
    }
    let (one, mut all) = join(
        rt,
        move || -> SessionDone<K, H>
            requires { IsReady (K.belongs desk.now) last list }
            ensures { HasRun (K.belongs desk.entry.now) K.number K.own K.knows_end K.faulted last
                result }
        { run_session(rt, desk, gate, last, list) },
        move || -> Vec<SessionDone<K, H>>
            requires { IsSync R.row × AllZip (IsReady (K.belongs desk.now)) work.items replies.items
                × (done.items ≡ []) × (vec_len work ≤ vec_capacity done) }
            ensures { AllZip (HasRun (K.belongs desk.entry.now) K.number K.own K.knows_end
                K.faulted) work.items result.items × (vec_capacity result ≡ vec_capacity done) }
        { run_all(rt, desk, gate, work, replies, done) },
    );
    all.push_reserved(one);
    all
}
