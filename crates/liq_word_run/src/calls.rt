//! One request after another, as the store answers them.

ghost use Rattle.std.specs.Prelude.{◌≡◌, ◌≢◌, ◌≤◌, ◌<◌, ◌+◌, ◌++◌, [], None, Err, List, vec_len, vec_capacity};
ghost use Rattle.liq_types.specs.declared.requests.Request.{Request};
ghost use Rattle.liq_types.specs.declared.requests.Request.TheVariants.{Ask};
ghost use Rattle.liq_rule_step.specs.Step.{step};
ghost use Rattle.liq_text.specs.Replies.{reply_line};
ghost use Rattle.liq_types.specs.State.{State};
ghost use Rattle.liq_core.specs.Core.{StandsFor};
ghost use Rattle.liq_store.specs.Causes.{counts_of};
ghost use Rattle.liq_word_exit.specs.Causes.{DiskCause};
ghost use Rattle.liq_word_exit.specs.Output.{lines};
ghost use Rattle.liq_text_lines.specs.Writing.{Writes};
ghost use Rattle.liq_word_run.specs.Passing.{Begun, IsPastOf, Passes};
ghost use Rattle.liq_word_run.specs.Calls.{Calls, GoOn, IsCommand, IsStopped, KeepsAround};

use crate::waiting::keep;
use liq_core::laws::protocols_stand;
use liq_outside::{Disk, Sink};
use liq_store::Store;
use liq_types::amounts::REPLY_BYTES;
use liq_types::{Answer, Hint, Query, Reply, Request};
use liq_word_exit::Halt;

/// Puts the reply to a query behind those that wait. The store is not called for it: so nothing is
/// cleared or moved that a command's plan has room for.
pub fn tell<D: Disk>(store: &Store<D>, query: &Query, waiting: &mut Vec<u8>)
    requires { vec_len waiting.old + REPLY_BYTES < vec_capacity waiting.old }
    ensures line { (s : State) → StandsFor store.now.core s
        → waiting.new.items ≡ waiting.old.items ++ reply_line (step s (Ask query.now)).1 }
    ensures capacity { vec_capacity waiting.old ≤ vec_capacity waiting.new }
{
    keep(&store.protocol().query(query), waiting);
}

/// Makes the request's step, and gives its reply. The sink is shown the disks behind the step: by
/// then no reply is out but those before this one.
pub fn call<D: Disk, K: Sink>(
    store: &mut Store<D>,
    request: &Request,
    out: &mut K,
) -> Result<Reply, Halt>
    requires going { store.old.stopped ≡ None }
    ensures call { (s : State) → StandsFor store.old.core s
        → Calls s request.now result store.new.core }
    ensures no_source { result ≢ Err Halt.ReadFault }
    ensures no_sink { result ≢ Err Halt.WriteFault }
    ensures command { result ≡ Err Halt.DiskFault → IsCommand request.now }
    ensures stopped { IsStopped result store.new.stopped }
    ensures time { GoOn D.at store.old store.new }
    // Nobody follows the list here.
    ensures untold { store.new.changes ≡ [] }
    // Where a disk met a fault, both keep the state before the request or after it.
    ensures kept { result ≡ Err Halt.DiskFault → (s : State) → StandsFor store.old.core s
        → KeepsAround D.at store.new.left store.new.right s request.now }
    ensures past { (begun : Begun D) (requests : List Request)
        → IsPastOf D.at begun requests store.old (K.at out.old).shown
        → Writes begun.held (lines begun.start requests) (K.at out.old).held
        → Passes D.at begun requests request.now result store.new (K.at out.new).shown }
    ensures held { (K.at out.new).held ≡ (K.at out.old).held }
    ensures sink { (K.at out.new).faults ≡ (K.at out.old).faults }
    ensures cause { DiskCause result (counts_of D.at store.old.left store.old.right)
        (counts_of D.at store.new.left store.new.right) }
{
    // odd: law called
    protocols_stand(store.protocol());
    let answer = store.call(request, &Hint::NONE);
    store.clear_changes();
    match answer {
        Answer::Reply(reply) => {
            store.show(out);
            Ok(reply)
        }
        Answer::NoMemory => Err(Halt::NoMemory),
        Answer::DiskFault => Err(Halt::DiskFault),
        _ => unreachable!(),
    }
}
