//! Sources and sinks: that each form works over real bytes, and that each fault is counted.

use crate::tests::checks::shows;
use crate::tests::disks::no_bytes;
use liq_outside::{MemoryDisk, MemorySink, MemorySource, Sink, Source, StdSink, StdSource};
use std::alloc::{AllocError, Global};
use std::io::{self, ErrorKind, Read};
use std::test::Fail;

const WORD: &[u8] = b"liquidation";

// Whether these bytes are the word's at a place, of which so many were read.
fn are_next(place: usize, bytes: &[u8], count: usize) -> bool {
    match (
        WORD.get(place..place.saturating_add(count)),
        bytes.get(..count),
    ) {
        (Some(expected), Some(bytes)) => expected == bytes,
        _ => false,
    }
}

// How many bytes one read takes that are the word's next, of five at most.
fn take_next<S: Source>(source: &mut S, place: usize) -> usize {
    let mut buf = [0; 5];
    match source.read(&mut buf) {
        Ok(count) if are_next(place, buf.as_slice(), count) => count,
        _ => 0,
    }
}

// Whether so many reads take the word.
fn gives_the_word<S: Source>(source: &mut S, reads: u8) -> bool {
    let mut place = 0usize;
    for _ in 0..reads {
        place = place.saturating_add(take_next(source, place));
    }
    place == WORD.len()
}

fn writes_whole<K: Sink>(sink: &mut K, piece: &[u8]) -> bool {
    match sink.write(piece) {
        Ok(count) => count == piece.len(),
        Err(_) => false,
    }
}

// How many of the pieces could not be written whole.
fn write_each<K: Sink>(sink: &mut K, pieces: &[&[u8]]) -> u64 {
    let mut failed = 0u64;
    for piece in pieces {
        failed = failed.saturating_add(u64::from(!writes_whole(sink, piece)));
    }
    failed
}

// What is seen of a source: whether it gives the word, its faults, how much is left, and whether it
// then gives nothing.
type Taken = (bool, u64, u64, bool);

fn take_from_memory(
    alloc: Global,
    chunk: u8,
    reads: u8,
    failing: &[u64],
) -> Result<Taken, AllocError> {
    let chunk = usize::from(chunk).max(1);
    Ok(take_from(
        MemorySource::new(WORD.to_vec(alloc)?, chunk, failing.to_vec(alloc)?),
        reads,
    ))
}

fn take_from(mut source: MemorySource, reads: u8) -> Taken {
    let is_word = gives_the_word(&mut source, reads);
    let (faults, left) = (source.faults(), source.left().len() as u64);
    (
        is_word,
        faults,
        left,
        matches!(source.read(&mut [0; 5]), Ok(0)),
    )
}

#[test]
fn a_memory_source_gives_its_bytes_in_chunks(rt: HostRuntime) -> Result<(), Fail> {
    // Chunks of 1: eleven reads and two that fail. Chunks of 7 into five places: 5, 5 and 1.
    for (chunk, reads, failing) in [(1, 13, [0, 3]), (7, 5, [1, 2])] {
        let taken = take_from_memory(rt.alloc(), chunk, reads, &failing)?;
        let is_right = taken == (true, 2, 0, true);
        shows(&rt, "a source gives its bytes, and ends", is_right);
    }
    Ok(())
}

// Whether a sink whose second write fails lacks the second of three pieces alone.
fn holds_the_others(mut sink: MemorySink) -> bool {
    let failed = write_each(&mut sink, &[b"ab", b"cd", b"efg"]);
    sink.bytes() == b"abefg".as_slice() && (failed, sink.faults()) == (1, 1)
}

#[test]
fn a_memory_sink_holds_what_did_not_fail(rt: HostRuntime) -> Result<(), Fail> {
    let failing = [1].to_vec(rt.alloc())?;
    let is_right = holds_the_others(MemorySink::new(rt.alloc(), failing));
    shows(&rt, "a sink holds the others", is_right);
    Ok(())
}

// Whether a sink tells what it is shown of two disks, before two writes and behind them.
fn tells_of(left: MemoryDisk, right: MemoryDisk, mut sink: MemorySink) -> bool {
    sink.show(&left, &right);
    let _ = write_each(&mut sink, &[b"ab", b"cd"]);
    sink.show(&left, &right);
    sink.tells()
}

// Where memory is ample, or it has room, it tells what it was shown, behind a write that failed
// too.
#[test]
fn a_memory_sink_tells_what_it_was_shown(rt: HostRuntime) -> Result<(), Fail> {
    let alloc = rt.alloc();
    let failing = [0].to_vec(alloc)?;
    let sink = MemorySink::new(alloc, failing);
    let is_told = tells_of(no_bytes(alloc), no_bytes(alloc), sink);
    shows(&rt, "a sink tells what it was shown", is_told);
    let roomy = MemorySink::with_room(alloc, 2, Vec::new(alloc))?;
    let is_told = tells_of(no_bytes(alloc), no_bytes(alloc), roomy);
    shows(&rt, "a sink with room tells it", is_told);
    Ok(())
}

#[derive(Drop)]
struct BrokenReader;

impl Read for BrokenReader {
    fn read(&mut self, _buf: &mut [u8]) -> io::Result<usize> {
        Err(io::Error::from(ErrorKind::Other))
    }
}

#[test]
fn a_reader_is_a_source(rt: HostRuntime) {
    let mut source = StdSource::new(WORD);
    let is_word = gives_the_word(&mut source, 4) && source.faults() == 0;
    shows(&rt, "a reader gives its bytes", is_word);
}

#[test]
fn a_broken_reader_is_a_source(rt: HostRuntime) {
    let mut broken = StdSource::new(BrokenReader);
    let is_broken = broken.read(&mut [0; 5]).is_err() && broken.faults() == 1;
    shows(&rt, "a broken reader", is_broken);
}

// The last piece finds no room, and the writer takes none of it.
#[test]
fn a_writer_is_a_sink(rt: HostRuntime) {
    let mut room = [0; 4];
    let mut sink = StdSink::new(room.as_mut_slice());
    let failed = write_each(&mut sink, &[b"ab", b"cd", b"e"]);
    let is_counted = (failed, sink.faults()) == (1, 1);
    let is_right = is_counted && room.as_slice() == b"abcd".as_slice();
    shows(&rt, "a writer holds the others", is_right);
}
