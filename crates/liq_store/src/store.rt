//! A store: two disks, the protocol that they stand for, and what nobody has followed yet of the
//! list's changes. Each command is planned and given room, then written, then made.
ghost use Rattle.std.specs.Prelude.{◌≡◌, ◌≢◌, ◌↔◌, ◌+◌, [], min, Some, None, Ok, Err, List, ℕ, false};
ghost use Rattle.std.specs.Prelude.{length, take, IfOk, IfErr, IfSome, IsSome, true};
ghost use Rattle.std.specs.List.{All};
ghost use Rattle.liq_outside.specs.Disk.{GoesOn, LeavesOnly, LeftNow, Looked, Only};
ghost use Rattle.liq_outside.specs.Faults.{count_most};
ghost use Rattle.liq_outside.specs.Showings.{Notes};
ghost use Rattle.liq_types.specs.declared.requests.Command.{Command};
ghost use Rattle.liq_types.specs.declared.requests.Request.TheVariants.{Do};
ghost use Rattle.liq_types.specs.State.{State};
ghost use Rattle.liq_core.specs.Core.{StandsFor};
ghost use Rattle.liq_journal.specs.Causes.{Counted};
ghost use Rattle.liq_journal.specs.Opened.{IsUnshut, OpenLeaves};
ghost use Rattle.liq_types.specs.Verbs.{is_rotate};
ghost use Rattle.liq_journal.specs.Written.{Open, Written, found_on};
ghost use Rattle.liq_disk_pair.specs.declared.side.Side.{Side};
ghost use Rattle.liq_disk_pair.specs.Kept.{IsKept};
ghost use Rattle.liq_disk_pair.specs.Pair.{StandFor};
ghost use Rattle.liq_disk_pair.specs.Sides.{has_odd, on, other};
ghost use Rattle.liq_disk_pair.specs.Unfinished.{IsRecovered, LeftLeaves};
ghost use Rattle.liq_disk_records.specs.Reading.{IsReadable};
ghost use Rattle.liq_store.specs.Answering.{AnswersByStep, IsUnreadable};
ghost use Rattle.liq_store.specs.Beginning.{BeginsLeft, Creates, IsEarlier, IsStoodOn, IsUnbegun};
ghost use Rattle.liq_store.specs.Calling.{AppendsOnce, WritesOn};
ghost use Rattle.liq_store.specs.Causes.{CausesAccepted, CausesAnswer, StopsAfter, faults_of, stopped_after_reading};
ghost use Rattle.liq_store.specs.Judging.{disk_of};
ghost use Rattle.liq_store.specs.Keeping.{IsAtRest, IsInOrder, LeavesPairs};
ghost use Rattle.liq_store.specs.Opening.{IsShutBeside, MeetsNone, OnlyOpens, OpensOn, left_after, right_after};
ghost use Rattle.liq_store.specs.declared.standing.Stood.TheVariants.{Holding};
ghost use Rattle.liq_store.specs.Stored.{disk_beside, taken_disk};
ghost use Rattle.liq_store.specs.Telling.{LeadsToList, TellsChanges, TellsList};
ghost use Rattle.liq_store.specs.Within.{IsWithin, stored};

use crate::answers::{StoreFault, StoreWhy};
use crate::judging::{disk_of, judge};
use crate::preparing::{Prepared, make, prepare};
use crate::reading::read_commands;
use crate::rotating::checkpoint_after;
use crate::standing::{Stood, stand};
use crate::telling::{clear, note};
use liq_core::Protocol;
use liq_core_hinted::Guided;
use liq_disk_pair::Side;
use liq_disk_records::{AcceptedFault, begin_generation, later_side, write_record};
use liq_journal::Journal;
use liq_outside::{Disk, Sink};
use liq_types::{Answer, Call, Command, Hint, ListChange, Reply, Request};
use std::alloc::Global;
use std::marker::{Brand, Model};
use std::sync::ledger::Blank;

// The sum of both disks' faults, as far as a count goes.
fn sum_of_faults<D: Disk>(taken: &Journal<D>, beside: &D) -> u64
    ensures { result ≡ min ((D.at taken.now.disk).faults + (D.at beside.now).faults) count_most }
{
    taken.faults().saturating_add(beside.faults())
}

/// The protocol over two disks. A contract sees the disks, the side on which the journal goes on
/// and where its records begin, the protocol, the changes of the ordered list that nobody has
/// followed yet, and, once a call met a disk's fault, the sum of both counts of faults then.
pub struct Store<D: Disk> {
    alloc: Global,
    taken: Journal<D>,
    beside: D,
    side: Side,
    protocol: Guided,
    // The list's changes that nobody has followed yet.
    changes: Vec<ListChange>,
    stopped: Option<u64>,
}

// odd: drop written out
impl<D: Disk + Drop> Drop for Store<D> {
    fn drop(self) {
        let Store {
            alloc: _,
            taken: _,
            beside: _,
            side: _,
            protocol: _,
            changes: _,
            stopped: _,
        } = self;
    }
}

impl<D: Disk> Model for Store<D> {
    ghost use Rattle.liq_store.specs.Stored.{Stored};
    ghost use Rattle.liq_store.specs.Within.{IsWithin, stored};

    ghost Value = { Stored D };

    ghost view = { λ s. stored s.side s.taken s.beside s.protocol s.stopped s.changes.items };

    ghost invariant = { λ s. IsWithin D.at s.side s.taken s.beside s.protocol s.stopped
        s.changes.items };
}

impl<D: Disk> Store<D> {
    ghost use Rattle.liq_store.specs.Opening.{IsNotOpened, OpensOn, left_after, right_after};

    /// Opens the store of two disks. Each begins with a sync and is tested whole, and the byte
    /// behind the records of an open one is shut; then the records of the one that is taken are
    /// replayed. Where neither is open, generation 1 is created on the left one.
    ///
    /// A journal of version 1 goes on in its own layout and under its own limit, until a rotation
    /// begins the next generation under the greater one.
    ///
    /// `DiskFault` comes exactly where a disk's count rose. `Damaged` has the first damage, the
    /// left disk's coming first: nothing is opened then, and the damage stays. The changes then
    /// tell the list to whoever has seen nothing.
    pub fn open(alloc: Global, left: D, right: D) -> Result<Store<D>, StoreFault<D>>
        // The state is the one for which the disks stand; where there is none, nothing is opened.
        // Either way the counts tell the cause.
        ensures opened { IfOk result (OpensOn D.at left right) }
        ensures not_opened { IfErr result (IsNotOpened D.at left right) }
        ensures order { IfOk result (IsInOrder D.at) }
        // The words of which keys are made, and then each trove in the list's order: who follows
        // them from nothing has the list.
        ensures told { IfOk result (λ store. TellsList store.core store.changes) }
        ensures followed { IfOk result (λ store. LeadsToList store.core store.changes) }
        // A disk on which none is open has no other byte than 0 at place 0, if it has one.
        ensures shut { IfOk result (λ store. IsShutBeside D.at store.side (disk_beside store)) }

        // Where nothing is opened and no disk met a fault nothing is pending: both disks are synced
        // before either is judged.
        ensures rests { IfErr result (λ e. (e.why ≢ StoreWhy.DiskFault)
            → IsAtRest D.at e.left × IsAtRest D.at e.right) }

        // Where no disk met a fault, both tell their bytes as they were, or with a 0 at the one place
        // that an opening shuts; or neither was open, and the left one is the first generation. So
        // they stand for what they stood for, by the same commands.
        ensures shuts { MeetsNone result → (l r a b : List ℕ) → (D.at left).seen ≡ Some l
            → (D.at right).seen ≡ Some r → (D.at (left_after result)).seen ≡ Some a
            → (D.at (right_after result)).seen ≡ Some b → OnlyOpens l r a b }

        // Of two disks that are kept for a state a stop leaves two that are kept for it, or for it
        // after the command that they held unfinished; and so does a fault, whatever was pending.
        ensures recovers { (l r : List ℕ) (s : State) → (D.at left).seen ≡ Some l
            → (D.at right).seen ≡ Some r → Only l (LeftNow D.at left) → Only r (LeftNow D.at right)
            → IsKept l r s
            → LeavesPairs D.at left right (left_after result) (right_after result)
            (IsRecovered l r s) }
        ensures reads { IfOk result (λ store. (l r a b : List ℕ) (s : State)
            → (D.at left).seen ≡ Some l → (D.at right).seen ≡ Some r → IsKept l r s
            → (D.at store.left).seen ≡ Some a → (D.at store.right).seen ≡ Some b
            → IsRecovered l r s a b) }

        // What holds of each disk by itself.
        ensures left_leaves { (l r : List ℕ) → (D.at left).seen ≡ Some l
            → (D.at right).seen ≡ Some r → Only l (LeftNow D.at left)
            → LeavesOnly D.at left (left_after result) (LeftLeaves l r) }
        ensures right_leaves { (r : List ℕ) → (D.at right).seen ≡ Some r
            → Only r (LeftNow D.at right)
            → LeavesOnly D.at right (right_after result) (OpenLeaves false r) }
        ensures left_telling { IsSome (D.at (left_after result)).seen ↔ IsSome (D.at left).seen }
        ensures right_telling { IsSome (D.at (right_after result)).seen ↔ IsSome (D.at right).seen }
        ensures left_time { GoesOn D.at left (left_after result) }
        ensures right_time { GoesOn D.at right (right_after result) }
    {
        let left = stand(alloc, left, true);
        let right = stand(alloc, right, false);
        match judge(left, right) {
            Ok((left, right)) => begin_told(alloc, left, right),
            Err(fault) => Err(fault),
        }
    }

    /// Answers a request: the protocol's reply, once the record of an accepted command is on the
    /// disk that is taken, or the next generation that an accepted rotation begins is on the other
    /// one, which is then taken.
    ///
    /// After `DiskFault` the store is stopped: every later call is answered `Stopped`, with the sum
    /// of both counts after that one. After `NoMemory` all is as before. The store has a guide of
    /// its list, whose hint counts before the command's own words and before the given one.
    pub fn call(&mut self, request: &Request, hint: &Hint) -> Answer
        // A store that is stopped answers that, to queries too, and stays as it is.
        ensures stopped { (sum : ℕ) → self.old.stopped ≡ Some sum → (result ≡ Answer.Stopped sum)
            × (self.new ≡ self.old) }

        // One that isn't replies by the step. Without memory or after a fault there is no step.
        ensures step { self.old.stopped ≡ None
            → AnswersByStep self.old request.now result self.new }

        ensures stops { StopsAfter D.at self.old result self.new }
        // An accepted command that is answered tells its changes, and nothing else tells any.
        ensures told { TellsChanges self.old request.now result self.new }

        ensures cause { CausesAnswer result (faults_of D.at self.old) (faults_of D.at self.new) }

        // Only an accepted command is written. A stop leaves two disks that are kept for the state
        // before the call or after it; after a reply, by `order`, for that after it.
        ensures disks { WritesOn D.at self.old request.now result self.new }
        ensures appended { AppendsOnce D.at self.old request.now result self.new }
        ensures order { IsInOrder D.at self.new }
    {
        if let Some(faults) = self.stopped {
            return Answer::Stopped { faults };
        }
        match request {
            Request::Do(command) => self.carry_out(command, hint),
            Request::Ask(query) => Answer::Reply(self.protocol.query(query)),
        }
    }

    // The same of a command, where the store isn't stopped: apart, so that what its plan takes is
    // neither cleared nor moved for a query.
    fn carry_out(&mut self, command: &Command, hint: &Hint) -> Answer
        requires going { self.old.stopped ≡ None }
        ensures step { AnswersByStep self.old (Do command.now) result self.new }
        ensures stops { StopsAfter D.at self.old result self.new }
        ensures told { TellsChanges self.old (Do command.now) result self.new }
        ensures cause { CausesAnswer result (faults_of D.at self.old) (faults_of D.at self.new) }
        ensures disks { WritesOn D.at self.old (Do command.now) result self.new }
        ensures appended { AppendsOnce D.at self.old (Do command.now) result self.new }
        ensures order { IsInOrder D.at self.new }
    {
        let (planned, hints) = match prepare(&mut self.protocol, &mut self.changes, command, hint) {
            Prepared::Ready(planned, hints) => (planned, hints),
            Prepared::Again(done) => return Answer::Reply(Reply::Said(done)),
            Prepared::No(refusal) => return Answer::Reply(Reply::No(refusal)),
            Prepared::NoMemory => return Answer::NoMemory,
        };
        if let Call::Rotate = command.call {
            let Ok(checkpoint) = checkpoint_after(self.alloc, self.protocol.protocol(), &planned)
            else {
                return Answer::NoMemory;
            };
            let side = match begin_generation(
                &mut self.taken,
                &mut self.beside,
                self.side,
                &checkpoint,
            ) {
                Ok(side) => side,
                Err(_) => {
                    self.stopped = Some(sum_of_faults(&self.taken, &self.beside));
                    return Answer::DiskFault;
                }
            };
            self.side = side;
            // odd: steps counted
            let done = make::<Brand>(&mut self.protocol, &planned, &hints, Blank::new(1));
            return Answer::Reply(Reply::Said(done));
        }
        match write_record(&mut self.taken, command) {
            Ok(()) => {}
            Err(_) => {
                self.stopped = Some(sum_of_faults(&self.taken, &self.beside));
                return Answer::DiskFault;
            }
        }
        note(&mut self.changes, planned.list_changes());
        let done = make::<Brand>(&mut self.protocol, &planned, &hints, Blank::new(1));
        Answer::Reply(Reply::Said(done))
    }

    /// The sum of both disks' faults after the first call that met one, or none.
    pub fn stopped(&self) -> Option<u64>
        ensures sum { result ≡ self.now.stopped }
        ensures order { IsInOrder D.at self.now }
    {
        self.stopped
    }

    /// The side of the disk that is taken, on which the journal goes on.
    pub fn side(&self) -> Side
        ensures { result ≡ self.now.side }
    {
        self.side
    }

    /// The protocol, whose state the disks keep.
    pub fn protocol(&self) -> &Protocol
        ensures { result.now ≡ self.now.core }
    {
        self.protocol.protocol()
    }

    /// The commands that were accepted in this generation, in order. It reads the disk that is
    /// taken.
    ///
    /// After `DiskFault` the store is stopped. `Damaged` never comes where the disk tells its
    /// content.
    pub fn accepted(&mut self) -> Result<Vec<Command>, AcceptedFault>
        ensures commands { IfOk result (λ list. (held : List ℕ) (w : Written)
            → (D.at (taken_disk self.old)).seen ≡ Some held
            → found_on (has_odd self.old.side) held ≡ Open w
            → list.items ≡ take self.old.core.records w.commands) }
        ensures all { self.old.stopped ≡ None → IfOk result (λ list. (held : List ℕ) (w : Written)
            → (D.at (taken_disk self.old)).seen ≡ Some held
            → found_on (has_odd self.old.side) held ≡ Open w → list.items ≡ w.commands) }
        ensures count { IfOk result (λ list. length list.items ≡ self.old.core.records) }
        ensures no_rotation { IfOk result (λ list. All
            (λ (c : Command). is_rotate c.call ≡ false) list.items) }
        ensures damaged { IfErr result
            (IsUnreadable self.old.core.image.generation self.old.start self.old.core.records) }
        ensures readable { IsSome (D.at (taken_disk self.old)).seen → IfErr result IsReadable }
        ensures looked { Looked D.at (taken_disk self.old) (taken_disk self.new) }
        ensures beside { disk_beside self.new ≡ disk_beside self.old }
        ensures same { self.new ≡ record self.old {
          left = self.new.left;
          right = self.new.right;
          stopped = self.new.stopped;
        } }
        ensures stops { self.new.stopped ≡ stopped_after_reading self.old.stopped result
            (faults_of D.at self.new) }
        ensures cause { CausesAccepted result (faults_of D.at self.old) (faults_of D.at self.new) }
        ensures order { IsInOrder D.at self.new }
    {
        match read_commands(self.alloc, &mut self.taken) {
            Ok(commands) => Ok(commands),
            Err(AcceptedFault::DiskFault) => {
                let sum = sum_of_faults(&self.taken, &self.beside);
                self.stopped = Some(self.stopped.unwrap_or(sum));
                Err(AcceptedFault::DiskFault)
            }
            Err(AcceptedFault::Damaged(damage)) => Err(AcceptedFault::Damaged(damage)),
            Err(AcceptedFault::NoMemory) => Err(AcceptedFault::NoMemory),
        }
    }

    /// The changes of the ordered list by the calls since they were last cleared, in order, behind
    /// those that told the list at the opening, if they were not cleared since.
    pub fn changes(&self) -> &[ListChange]
        ensures { result.now ≡ self.now.changes }
    {
        &self.changes
    }

    /// Lets the changes go, but for room for a few later ones. All else stays.
    pub fn clear_changes(&mut self)
        ensures cleared { self.new ≡ record self.old { changes = [] } }
        ensures order { IsInOrder D.at self.new }
    {
        clear(self.alloc, &mut self.changes);
    }

    /// Shows a sink both disks as they are now, the left one first. It is no device call.
    pub fn show<K: Sink>(&self, out: &mut K)
        ensures same { K.at out.new ≡ record (K.at out.old) { shown = (K.at out.new).shown } }
        ensures shown { Notes D.at (K.at out.old).held self.now.left self.now.right
            (K.at out.old).shown (K.at out.new).shown }
    {
        match self.side {
            Side::Left => out.show(self.taken.disk(), &self.beside),
            Side::Right => out.show(&self.beside, self.taken.disk()),
        }
    }

    /// The disks, as they are.
    pub fn close(self) -> (D, D)
        ensures left { result.0 ≡ self.left }
        ensures right { result.1 ≡ self.right }
        ensures order { IsInOrder D.at self }
        // They stand for the state of a store that met no fault: so the next opening has it again.
        ensures state { self.stopped ≡ None → (l r : List ℕ) (s : State)
            → (D.at result.0).seen ≡ Some l → (D.at result.1).seen ≡ Some r
            → StandsFor self.core s → StandFor l r s }
    {
        let Store {
            alloc: _,
            taken,
            beside,
            side,
            protocol: _,
            changes: _,
            stopped: _,
        } = self;
        let taken = taken.close();
        match side {
            Side::Left => (taken, beside),
            Side::Right => (beside, taken),
        }
    }
}

// The store of two disks with which nothing is wrong, and its list as others follow it from
// nothing.
fn begin_told<D: Disk>(
    alloc: Global,
    left: Stood<D>,
    right: Stood<D>,
) -> Result<Store<D>, StoreFault<D>>
    requires left { IsStoodOn D.at true left }
    requires right { IsStoodOn D.at false right }
    ensures opened { IfOk result (OpensOn D.at (disk_of left) (disk_of right)) }
    ensures order { IfOk result (IsInOrder D.at) }
    ensures told { IfOk result (λ store. TellsList store.core store.changes) }
    ensures followed { IfOk result (λ store. LeadsToList store.core store.changes) }
    ensures shut { IfOk result (λ store. IsShutBeside D.at store.side (disk_beside store)) }
    ensures left { BeginsLeft D.at left right (left_after result) }
    ensures right { right_after result ≡ disk_of right }
    ensures cause { IfErr result (IsUnbegun D.at (disk_of left) (disk_of right)) }
    ensures rests { IfErr result (λ e. (e.why ≢ StoreWhy.DiskFault)
        → IsAtRest D.at e.left × IsAtRest D.at e.right) }
{
    match begin(alloc, left, right) {
        Ok(store) => with_list(store),
        Err(fault) => Err(fault),
    }
}

// The store, with its list as others follow it from nothing. Where there is no memory for that, its
// disks.
fn with_list<D: Disk>(store: Store<D>) -> Result<Store<D>, StoreFault<D>>
    ensures store { IfOk result (λ listed. listed ≡ record store { changes = listed.changes }) }
    ensures order { IfOk result (IsInOrder D.at) }
    ensures told { IfOk result (λ listed. TellsList store.core listed.changes) }
    ensures followed { IfOk result (λ listed. LeadsToList store.core listed.changes) }
    ensures err { IfErr result (λ e. (e.left ≡ store.left) × (e.right ≡ store.right)
        × (e.why ≡ StoreWhy.NoMemory)) }
{
    let mut store = store;
    match store.protocol().list(store.alloc) {
        Ok(changes) => {
            store.changes = changes;
            Ok(store)
        }
        Err(_) => {
            let (left, right) = store.close();
            let why = StoreWhy::NoMemory;
            Err(StoreFault { left, right, why })
        }
    }
}

// The store of two disks with which nothing is wrong. Of two journals the one of the greater
// generation is taken; where there is none, the first is created on the left disk.
fn begin<D: Disk>(alloc: Global, left: Stood<D>, right: Stood<D>) -> Result<Store<D>, StoreFault<D>>
    requires left { IsStoodOn D.at true left }
    requires right { IsStoodOn D.at false right }
    ensures opened { IfOk result (OpensOn D.at (disk_of left) (disk_of right)) }
    ensures order { IfOk result (IsInOrder D.at) }
    ensures shut { IfOk result (λ store. IsShutBeside D.at store.side (disk_beside store)) }
    ensures fault { IfErr result (λ e. e.why ≡ StoreWhy.DiskFault) }
    ensures left { BeginsLeft D.at left right (left_after result) }
    ensures right { right_after result ≡ disk_of right }
    ensures cause { IfErr result (λ e. Counted (D.at (disk_of left)).faults (D.at e.left).faults) }
{
    match left {
        Stood::Nothing(left) => match right {
            Stood::Nothing(right) => begin_anew(alloc, left, right),
            Stood::Holding(taken, protocol) => {
                let aside = Stood::Nothing(left);
                Ok(go_on(alloc, Side::Right, taken, protocol, aside))
            }
        },
        Stood::Holding(taken, protocol) => match right {
            Stood::Nothing(right) => {
                let aside = Stood::Nothing(right);
                Ok(go_on(alloc, Side::Left, taken, protocol, aside))
            }
            Stood::Holding(other, later) => match later_side(&protocol, &later) {
                Side::Right => {
                    let aside = Stood::Holding(taken, protocol);
                    Ok(go_on(alloc, Side::Right, other, later, aside))
                }
                Side::Left => {
                    let aside = Stood::Holding(other, later);
                    Ok(go_on(alloc, Side::Left, taken, protocol, aside))
                }
            },
        },
    }
}

// The store that goes on with the journal of this side's disk, beside which no later one is.
fn go_on<D: Disk>(
    alloc: Global,
    side: Side,
    taken: Journal<D>,
    protocol: Guided,
    aside: Stood<D>,
) -> Store<D>
    requires taken { IsStoodOn D.at (has_odd side) (Holding taken protocol) }
    requires aside { IsStoodOn D.at (has_odd (other side)) aside }
    requires earlier { IsEarlier taken.generation aside }
    ensures store { result ≡ stored side taken (disk_of aside) protocol None [] }
    ensures opened { OpensOn D.at (on side taken.disk (disk_of aside))
        (on side (disk_of aside) taken.disk) result }
    ensures order { IsInOrder D.at result }
    ensures shut { IsShutBeside D.at side (disk_beside result) }
{
    begin_on(alloc, side, taken, disk_of(aside), protocol)
}

// The store of this journal and the disk beside it.
fn begin_on<D: Disk>(
    alloc: Global,
    side: Side,
    taken: Journal<D>,
    beside: D,
    protocol: Guided,
) -> Store<D>
    requires { IsWithin D.at side taken beside protocol None [] }
    ensures { result ≡ stored side taken beside protocol None [] }
{
    Store {
        alloc,
        taken,
        beside,
        side,
        protocol,
        changes: Vec::new(alloc),
        stopped: None,
    }
}

// The store of two disks on which no journal is open.
fn begin_anew<D: Disk>(alloc: Global, left: D, right: D) -> Result<Store<D>, StoreFault<D>>
    requires left { IfSome (D.at left).seen (λ now. IsUnshut now → ⊥) }
    requires right { IfSome (D.at right).seen (λ now. IsUnshut now → ⊥) }
    requires rests { IsAtRest D.at right }
    ensures opened { IfOk result (OpensOn D.at left right) }
    ensures order { IfOk result (IsInOrder D.at) }
    ensures shut { IfOk result (λ store. IsShutBeside D.at store.side (disk_beside store)) }
    ensures fault { IfErr result (λ e. e.why ≡ StoreWhy.DiskFault) }
    ensures left { Creates D.at left (left_after result) }
    ensures right { right_after result ≡ right }
    ensures cause { IfErr result (λ e. Counted (D.at left).faults (D.at e.left).faults) }
{
    match Journal::create(left, 1, &[]) {
        Ok(taken) => {
            let protocol = Guided::with_limit(alloc, taken.limit());
            Ok(begin_on(alloc, Side::Left, taken, right, protocol))
        }
        Err(fault) => Err(StoreFault {
            left: fault.disk,
            right,
            why: StoreWhy::DiskFault,
        }),
    }
}
