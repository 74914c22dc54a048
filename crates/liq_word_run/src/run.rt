//! The word `run`: a store over two disks, and the lines that it is asked and answers.

ghost use Rattle.std.specs.Prelude.{length, Err, Option, Some, None, ◌≡◌, ◌≢◌, ◌≤◌, ◌<◌, ◌+◌, ◌↔◌, [], ℕ, List, Ok, IfOk, IfErr, IfSome, IsSome, vec_capacity};
ghost use Rattle.liq_outside.specs.Disk.{GoesOn};
ghost use Rattle.liq_types.specs.State.{State};
ghost use Rattle.liq_types.specs.declared.requests.Request.{Request};
ghost use Rattle.liq_types.specs.declared.requests.Request.TheVariants.{Ask};
ghost use Rattle.liq_types.specs.declared.amounts.TheConstants.{LINE_BYTES, LINES_MOST};
ghost use Rattle.liq_word_run.specs.declared.waiting.TheConstants.{WAITING_MOST};
ghost use Rattle.liq_word_run.specs.declared.run.Next.TheVariants.{Line};
ghost use Rattle.liq_word_run.specs.Calls.{GoOn, IsStopped, KeepsAround};
ghost use Rattle.liq_word_run.specs.Passing.{Begun, BeginsNone, BeginsRun, IsPastOf, Passes};
ghost use Rattle.liq_word_run.specs.Progress.{RequestOn, ReadsRequest, Answers, GivesBack, Written};
ghost use Rattle.liq_core.specs.Core.{StandsFor};
ghost use Rattle.liq_disk_pair.specs.Pair.{state_on};
ghost use Rattle.liq_store.specs.Causes.{Faults, counts_of};
ghost use Rattle.liq_store.specs.Opening.{IsNotOpened, OpensOn};
ghost use Rattle.liq_text_lines.specs.declared.reader.TheConstants.{READ_BYTES};
ghost use Rattle.liq_text_lines.specs.Lines.{IsWholeLine};
ghost use Rattle.liq_text_lines.specs.Reading.{unread, ReadsAtMost, taken_most};
ghost use Rattle.liq_word_exit.specs.declared.halts.Halt.{Halt};
ghost use Rattle.liq_word_exit.specs.Causes.{DiskCause, DisksGoOn, ReadCause, WriteCause};
ghost use Rattle.liq_word_exit.specs.Disks.{LeavesDamaged, OfDamage, OfState};
ghost use Rattle.liq_word_exit.specs.Unopened.{halt_of};

use crate::calls::{call, tell};
use crate::waiting::{WAITING_MOST, catch_up, flush, keep, make_room};
use liq_outside::{Disk, Failed, Sink, Source};
use liq_store::{Store, StoreFault, StoreWhy};
use liq_text::{read_line, read_query};
use liq_text_lines::{LineEnd, Reader};
use liq_types::amounts::{LINE_BYTES, LINES_MOST};
use liq_types::{Query, Request};
use liq_word_exit::{Ending, Halt, end_with_store, end_without_store, write_rest};
use std::alloc::{AllocError, Global};

/// What stands next in the input.
#[derive(Clone, Copy)]
enum Next {
    /// A request on a line with a line end.
    Line(Request),
    /// A request on the last line, which lacks its line end.
    LastLine(Request),
    /// Nothing: the input is over.
    End,
}

/// Reads the next line's request, of which there are so many before it: of this size where it was
/// taken whole already. Behind a bad line nothing is read.
fn next_request<S: Source>(
    reader: &mut Reader,
    whole: Option<usize>,
    line: &mut Vec<u8>,
    input: &mut S,
    before: u64,
) -> Result<Next, Halt>
    requires few { before < LINES_MOST }
    requires room { LINE_BYTES ≤ vec_capacity line.old }
    requires whole { IfSome whole (λ size. IsWholeLine size reader.old) }
    ensures request { ReadsRequest (unread reader.old (S.at input.old).left)
        (unread reader.new (S.at input.new).left) reader.new (before + 1) result }
    ensures few { ReadsAtMost (LINE_BYTES + 1) (unread reader.old (S.at input.old).left)
        (unread reader.new (S.at input.new).left) }
    ensures held { length reader.new ≤ READ_BYTES }
    // Where the line was taken already, nothing is read.
    ensures taken { IsSome whole → result ≢ Err Halt.ReadFault }
    ensures capacity { vec_capacity line.new ≡ vec_capacity line.old }
    ensures cause { ReadCause result (S.at input.old).faults (S.at input.new).faults }
{
    match whole {
        Some(size) => taken_request(reader, size, before),
        None => match reader.next_line(input, line) {
            Err(Failed) => Err(Halt::ReadFault),
            Ok(LineEnd::Nothing) => Ok(Next::End),
            Ok(LineEnd::TooLong) => Err(Halt::bad_line(before)),
            Ok(LineEnd::Ended) => Ok(Next::Line(request_on(line, before)?)),
            Ok(LineEnd::Unended) => Ok(Next::LastLine(request_on(line, before)?)),
        },
    }
}

/// The query on the next line, where that was taken whole and has one: then the line is passed, and
/// else none is.
fn next_query(reader: &mut Reader, whole: Option<usize>) -> Option<Query>
    requires { IfSome whole (λ size. IsWholeLine size reader.old) }
    ensures query { IfSome result (λ query. (number : ℕ) (left : Option (List ℕ))
        → ReadsRequest (unread reader.old left) (unread reader.new left) reader.new number
        (Ok (Line (Ask query)))) }
    ensures few { IfSome result (λ _. (left : Option (List ℕ))
        → ReadsAtMost (LINE_BYTES + 1) (unread reader.old left) (unread reader.new left)) }
    ensures held { IsSome result → length reader.new ≤ READ_BYTES }
    ensures stays { result ≡ None → reader.new ≡ reader.old }
{
    let size = whole?;
    let query = read_query(reader.line(size))?;
    reader.pass(size);
    Some(query)
}

/// The request on the line of this size, which was taken whole.
fn taken_request(reader: &mut Reader, size: usize, before: u64) -> Result<Next, Halt>
    requires few { before < LINES_MOST }
    requires whole { IsWholeLine size reader.old }
    ensures request { (left : Option (List ℕ))
        → ReadsRequest (unread reader.old left) (unread reader.new left) reader.new (before + 1)
        result }
    ensures few { (left : Option (List ℕ))
        → ReadsAtMost (LINE_BYTES + 1) (unread reader.old left) (unread reader.new left) }
    ensures held { length reader.new ≤ READ_BYTES }
    ensures taken { result ≢ Err Halt.ReadFault }
{
    let request = request_on(reader.line(size), before);
    reader.pass(size);
    match request {
        Ok(request) => Ok(Next::Line(request)),
        Err(halt) => Err(halt),
    }
}

/// The request on the line behind so many.
fn request_on(line: &[u8], before: u64) -> Result<Request, Halt>
    requires { before < LINES_MOST }
    ensures { RequestOn line.now (before + 1) result }
{
    match read_line(line) {
        Ok(request) => Ok(request),
        Err(_) => Err(Halt::bad_line(before)),
    }
}

/// Answers the input's lines over the store of two disks, from the state for which they stand.
pub fn run_input<S, K, D>(alloc: Global, input: &mut S, out: &mut K, left: D, right: D) -> Ending<D>
where
    S: Source,
    K: Sink,
    D: Disk,
    ensures run { OfState D.at left right (λ l r start.
        GivesBack D.at left right start result.end (S.at input.old).left l r (S.at input.new).left
        (K.at out.old).held (K.at out.new).held (K.at out.old).shown (K.at out.new).shown
        result.left result.right) }
    // Over damaged disks nothing is read or written.
    ensures damaged { OfDamage D.at left right (λ l r side damage.
        (input.new ≡ input.old) × (out.new ≡ out.old)
        × LeavesDamaged D.at left right l r side damage result.end result.left result.right) }
    ensures few { ReadsAtMost (taken_most LINES_MOST) (S.at input.old).left (S.at input.new).left }
    ensures source { ReadCause result.end (S.at input.old).faults (S.at input.new).faults }
    ensures sink { WriteCause result.end (K.at out.old).faults (K.at out.new).faults }
    ensures disks { DisksGoOn D.at left right result.end result.left result.right }
    // It goes on in whatever generation.
    ensures goes_on { (generation : ℕ) → result.end ≢ Err (Halt.Rotated generation) }
{
    let mut run = match Run::open(alloc, left, right, out) {
        Ok(run) => run,
        Err(fault) => return end_without_store(fault),
    };
    let end = run.answer_all(input, out);
    end_with_store(run.into_store(), end)
}

/// What a run reads into and gathers replies in.
#[derive(Drop)]
struct Buffers {
    reader: Reader,
    line: Vec<u8>,
    waiting: Vec<u8>,
    ghost line_room: { LINE_BYTES ≤ vec_capacity line },
    ghost waiting_room: { WAITING_MOST ≤ vec_capacity waiting },
}

impl Buffers {
    fn new(alloc: Global) -> Result<Buffers, AllocError>
        ensures { IfOk result (λ buffers. (buffers.reader ≡ []) × (buffers.waiting.items ≡ [])) }
    {
        Ok(Buffers {
            reader: Reader::new(alloc)?,
            line: Vec::with_capacity(alloc, LINE_BYTES)?,
            waiting: Vec::with_capacity(alloc, WAITING_MOST)?,
        })
    }
}

/// One store, and where it has come to in its input.
#[derive(Drop)]
pub struct Run<D: Disk> {
    store: Store<D>,
    reader: Reader,
    line: Vec<u8>,
    waiting: Vec<u8>,
    ghost line_room: { LINE_BYTES ≤ vec_capacity line },
    ghost waiting_room: { WAITING_MOST ≤ vec_capacity waiting },
}

impl<D: Disk> Run<D> {
    ghost use Rattle.liq_word_run.specs.Turns.{HasCome, HasEnded, RunShows, TakesTurn, place_of, run_at};

    /// A run over the store of two disks, which the sink is shown then. Where it is not opened the
    /// disks are handed back.
    pub fn open<K: Sink>(
        alloc: Global,
        left: D,
        right: D,
        out: &mut K,
    ) -> Result<Run<D>, StoreFault<D>>
        ensures opened { IfOk result (λ run.
            OpensOn D.at left right run.store × (run.reader ≡ []) × (run.waiting.items ≡ [])) }
        ensures not_opened { IfErr result (IsNotOpened D.at left right) }
        // What a crash at some moment may have left of both disks is that of an opening.
        ensures begins { IfOk result (λ run. (l r : List ℕ) (start : State)
            → (D.at left).seen ≡ Some l → (D.at right).seen ≡ Some r → state_on l r ≡ Ok start
            → BeginsRun D.at left right l r start run.store (K.at out.old).held
            (K.at out.old).shown (K.at out.new).shown) }
        ensures begins_none { IfErr result (λ fault. (l r : List ℕ) (start : State)
            → (D.at left).seen ≡ Some l → (D.at right).seen ≡ Some r → state_on l r ≡ Ok start
            → BeginsNone D.at left right l r start fault.why fault.left fault.right) }
        ensures held { (K.at out.new).held ≡ (K.at out.old).held }
        ensures sink { (K.at out.new).faults ≡ (K.at out.old).faults }
        ensures untouched { IfErr result (λ _. out.new ≡ out.old) }
        ensures time { IfOk result (λ run.
            GoesOn D.at left run.store.left × GoesOn D.at right run.store.right) }
        ensures telling { IfOk result (λ run.
            (IsSome (D.at run.store.left).seen ↔ IsSome (D.at left).seen)
            × (IsSome (D.at run.store.right).seen ↔ IsSome (D.at right).seen)) }
        ensures disks { IfErr result (λ fault.
            DisksGoOn D.at left right (Err (halt_of fault.why)) fault.left fault.right) }
        ensures damaged { IfErr result (λ fault. OfDamage D.at left right (λ l r side damage.
            LeavesDamaged D.at left right l r side damage (Err (halt_of fault.why))
            fault.left fault.right)) }
    {
        let Buffers {
            reader,
            line,
            waiting,
        } = match Buffers::new(alloc) {
            Ok(buffers) => buffers,
            Err(_) => {
                let why = StoreWhy::NoMemory;
                return Err(StoreFault { left, right, why });
            }
        };
        match Store::open(alloc, left, right) {
            Ok(mut store) => {
                // Nobody follows the list here.
                store.clear_changes();
                store.show(out);
                Ok(Run {
                    store,
                    reader,
                    line,
                    waiting,
                })
            }
            Err(fault) => Err(fault),
        }
    }

    /// The store, as the run leaves it.
    pub fn into_store(self) -> Store<D>
        ensures { result ≡ self.store }
    {
        let Run {
            store,
            reader: _,
            line: _,
            waiting: _,
        } = self;
        store
    }

    /// Answers the input's lines, to its end or to where the run stops, and writes all replies.
    pub fn answer_all<S: Source, K: Sink>(&mut self, input: &mut S, out: &mut K) -> Result<(), Halt>
        requires unread { self.old.reader ≡ [] }
        requires waiting { self.old.waiting.items ≡ [] }
        requires going { self.old.store.stopped ≡ None }
        ensures run { (begun : Begun D) → begun.held ≡ (K.at out.old).held
            → IsPastOf D.at begun [] self.old.store (K.at out.old).shown
            → HasEnded D.at begun (S.at input.old).left
            (place_of self.new (S.at input.new) (K.at out.new)) result }
        ensures few { ReadsAtMost (taken_most LINES_MOST)
            (S.at input.old).left (S.at input.new).left }
        ensures source { ReadCause result (S.at input.old).faults (S.at input.new).faults }
        ensures sink { WriteCause result (K.at out.old).faults (K.at out.new).faults }
        ensures stopped { IsStopped result self.new.store.stopped }
        ensures time { GoOn D.at self.old.store self.new.store }
        ensures disks { DiskCause result (counts_of D.at self.old.store.left self.old.store.right)
            (counts_of D.at self.new.store.left self.new.store.right) }
    {
        let end = self.answer_lines(input, out);
        self.catch_up_at(end, out)
    }

    /// Answers the input's lines. Some replies may wait at the end, but none at a read fault or a
    /// disk's.
    fn answer_lines<S: Source, K: Sink>(&mut self, input: &mut S, out: &mut K) -> Result<(), Halt>
        requires unread { self.old.reader ≡ [] }
        requires waiting { self.old.waiting.items ≡ [] }
        requires going { self.old.store.stopped ≡ None }
        ensures run { (begun : Begun D) → begun.held ≡ (K.at out.old).held
            → IsPastOf D.at begun [] self.old.store (K.at out.old).shown
            → HasCome D.at begun (S.at input.old).left
            (place_of self.new (S.at input.new) (K.at out.new)) result }
        ensures few { ReadsAtMost (taken_most LINES_MOST)
            (S.at input.old).left (S.at input.new).left }
        ensures shows { RunShows D.at self.old (S.at input.old) (K.at out.old)
            self.new (S.at input.new) (K.at out.new) result }
    {
        for answered in 0..LINES_MOST {
            if !self.answer_line(input, out, answered)? {
                return Ok(());
            }
        }
        flush(&mut self.waiting, out)?;
        match self.reader.next_byte(input) {
            Ok(None) => Ok(()),
            Ok(Some(_)) => Err(Halt::Limit(u128::from(LINES_MOST))),
            Err(Failed) => Err(Halt::ReadFault),
        }
    }

    /// Writes what waits at the run's end. Where the sink meets a fault at it, that is the end.
    fn catch_up_at<K: Sink>(&self, end: Result<(), Halt>, out: &mut K) -> Result<(), Halt>
        ensures run { (begun : Begun D) (told left : Option (List ℕ))
            → HasCome D.at begun told
            (run_at self.now.store self.now.reader self.now.waiting.items left (K.at out.old)) end
            → HasEnded D.at begun told
            (run_at self.now.store self.now.reader [] left (K.at out.new)) result }
        ensures source { (old new : ℕ)
            → (end ≡ Err Halt.ReadFault → self.now.waiting.items ≡ [])
            → ReadCause end old new → ReadCause result old new }
        ensures sink { (old : ℕ) → WriteCause end old (K.at out.old).faults
            → WriteCause result old (K.at out.new).faults }
        ensures disks { (old new : Faults)
            → (end ≡ Err Halt.DiskFault → self.now.waiting.items ≡ [])
            → DiskCause end old new → DiskCause result old new }
        ensures stopped { (stopped : Option ℕ)
            → (end ≡ Err Halt.DiskFault → self.now.waiting.items ≡ [])
            → IsStopped end stopped → IsStopped result stopped }
    {
        write_rest(out, &self.waiting, end)
    }

    /// Answers the next line, of which there are `answered` before it, and says whether another may
    /// follow. Before the source is read the replies that wait are written.
    fn answer_line<S: Source, K: Sink>(
        &mut self,
        input: &mut S,
        out: &mut K,
        answered: u64,
    ) -> Result<bool, Halt>
        requires few { answered < LINES_MOST }
        requires going { self.old.store.stopped ≡ None }
        ensures turn { TakesTurn D.at answered (place_of self.old (S.at input.old) (K.at out.old))
            (place_of self.new (S.at input.new) (K.at out.new)) result }
        ensures shows { RunShows D.at self.old (S.at input.old) (K.at out.old)
            self.new (S.at input.new) (K.at out.new) result }
    {
        let whole = self.reader.whole_line();
        if let Some(query) = next_query(&mut self.reader, whole) {
            self.answer_query(&query, out)?;
            return Ok(true);
        }
        self.answer_line_at(whole, input, out, answered)
    }

    /// The same of a next line of this size, or of one that was not taken whole.
    fn answer_line_at<S: Source, K: Sink>(
        &mut self,
        whole: Option<usize>,
        input: &mut S,
        out: &mut K,
        answered: u64,
    ) -> Result<bool, Halt>
        requires few { answered < LINES_MOST }
        requires whole { IfSome whole (λ size. IsWholeLine size self.old.reader) }
        requires going { self.old.store.stopped ≡ None }
        ensures turn { TakesTurn D.at answered (place_of self.old (S.at input.old) (K.at out.old))
            (place_of self.new (S.at input.new) (K.at out.new)) result }
        ensures shows { RunShows D.at self.old (S.at input.old) (K.at out.old)
            self.new (S.at input.new) (K.at out.new) result }
    {
        catch_up(whole, &mut self.waiting, out)?;
        match next_request(&mut self.reader, whole, &mut self.line, input, answered)? {
            Next::End => Ok(false),
            Next::Line(request) => {
                self.answer(&request, out)?;
                Ok(true)
            }
            Next::LastLine(request) => {
                self.answer(&request, out)?;
                Ok(false)
            }
        }
    }

    /// Makes the request's step, and keeps its reply until it is written. Before a command's step
    /// all other replies are written.
    fn answer<K: Sink>(&mut self, request: &Request, out: &mut K) -> Result<(), Halt>
        requires going { self.old.store.stopped ≡ None }
        ensures answer { (s : State) → StandsFor self.old.store.core s
            → Answers s request.now result self.new.store.core self.old.waiting.items
            self.new.waiting.items (K.at out.old).held (K.at out.new).held }
        ensures reader { self.new.reader ≡ self.old.reader }
        ensures past { (begun : Begun D) (requests : List Request)
            → IsPastOf D.at begun requests self.old.store (K.at out.old).shown
            → Written begun.start requests self.old.waiting.items begun.held (K.at out.old).held
            → Passes D.at begun requests request.now result self.new.store (K.at out.new).shown }
        ensures other { result ≢ Err Halt.ReadFault }
        // Where a disk met a fault nothing waits, and both disks keep the state before the request
        // or after it.
        ensures caught_up { result ≡ Err Halt.DiskFault → self.new.waiting.items ≡ [] }
        ensures kept { result ≡ Err Halt.DiskFault → (s : State) → StandsFor self.old.store.core s
            → KeepsAround D.at self.new.store.left self.new.store.right s request.now }
        ensures sink { WriteCause result (K.at out.old).faults (K.at out.new).faults }
        ensures stopped { IsStopped result self.new.store.stopped }
        ensures time { GoOn D.at self.old.store self.new.store }
        ensures disks { DiskCause result (counts_of D.at self.old.store.left self.old.store.right)
            (counts_of D.at self.new.store.left self.new.store.right) }
    {
        match request {
            Request::Ask(query) => self.answer_query(query, out),
            Request::Do(_) => {
                flush(&mut self.waiting, out)?;
                let reply = call(&mut self.store, request, out)?;
                keep(&reply, &mut self.waiting);
                Ok(())
            }
        }
    }

    /// The same of a query: apart, so that nothing is cleared or moved for it that a command takes.
    fn answer_query<K: Sink>(&mut self, query: &Query, out: &mut K) -> Result<(), Halt>
        requires going { self.old.store.stopped ≡ None }
        ensures answer { (s : State) → StandsFor self.old.store.core s
            → Answers s (Ask query.now) result self.new.store.core self.old.waiting.items
            self.new.waiting.items (K.at out.old).held (K.at out.new).held }
        ensures reader { self.new.reader ≡ self.old.reader }
        ensures past { (begun : Begun D) (requests : List Request)
            → IsPastOf D.at begun requests self.old.store (K.at out.old).shown
            → Passes D.at begun requests (Ask query.now) result self.new.store
            (K.at out.new).shown }
        ensures other { result ≢ Err Halt.ReadFault }
        ensures caught_up { result ≡ Err Halt.DiskFault → self.new.waiting.items ≡ [] }
        ensures kept { result ≡ Err Halt.DiskFault → (s : State) → StandsFor self.old.store.core s
            → KeepsAround D.at self.new.store.left self.new.store.right s (Ask query.now) }
        ensures sink { WriteCause result (K.at out.old).faults (K.at out.new).faults }
        ensures stopped { IsStopped result self.new.store.stopped }
        ensures time { GoOn D.at self.old.store self.new.store }
        ensures disks { DiskCause result (counts_of D.at self.old.store.left self.old.store.right)
            (counts_of D.at self.new.store.left self.new.store.right) }
    {
        make_room(&mut self.waiting, out)?;
        tell(&self.store, query, &mut self.waiting);
        Ok(())
    }
}
