//! The bytes of the input, read in pieces and fed to a follower.

ghost use Rattle.std.specs.Prelude.{◌≡◌, ◌≢◌, ◌≤◌, ◌+◌, ◌++◌, [], List, ℕ, length, Ok, Err, IfOk, vec_len};
ghost use Rattle.liq_follower.specs.Fed.{GoOn};
ghost use Rattle.liq_follower.specs.Following.{IsFed};
ghost use Rattle.liq_text_lines.specs.Reading.{Reads};
ghost use Rattle.liq_word_exit.specs.Causes.{ReadCause};
ghost use Rattle.liq_word_follow.specs.Feeding.{FedAll, FedNext, FedPiece};

use liq_follower::Follower;
use liq_outside::{Failed, Source};
use liq_types::NoMemory;
use liq_word_exit::{Halt, end_of_feed, look_further};
use std::alloc::Global;

/// The most bytes of the input that are followed.
pub const FED_MOST: usize = 268_435_456;

/// The most that one read asks of the source, in bytes.
const PIECE_BYTES: usize = 4_096;

/// Reads the input to its end, piece by piece, and feeds it to a follower that has taken no byte.
/// It stops at the first byte that shows a fault, and behind the most bytes that are followed it
/// only looks whether there is one more.
pub fn feed_input<S: Source>(
    alloc: Global,
    input: &mut S,
    follower: &mut Follower,
) -> Result<(), Halt>
    requires new { IsFed [] follower.old }
    ensures fed { (read : List ℕ) × Reads (S.at input.old).left read (S.at input.new).left
        × FedAll result read (S.at input.new).left follower.new }
    ensures source { ReadCause result (S.at input.old).faults (S.at input.new).faults }
    ensures no_sink { result ≢ Err Halt.WriteFault }
{
    let mut piece = new_piece(alloc)?;
    let mut room = FED_MOST;
    while room > 0 {
        let size = room.min(PIECE_BYTES);
        let count = feed_next(input, &mut piece[..size], follower)?;
        if count == 0 {
            return Ok(());
        }
        room -= count;
    }
    look_further(input, FED_MOST as u128)
}

/// Room for what one read asks for.
fn new_piece(alloc: Global) -> Result<Vec<u8>, NoMemory>
    ensures { IfOk result (λ piece. vec_len piece ≡ PIECE_BYTES) }
{
    match vec![in alloc; 0; PIECE_BYTES] {
        Ok(piece) => Ok(piece),
        Err(_) => Err(NoMemory),
    }
}

/// Reads the next bytes and feeds them. It says how many they are, and none at the source's end.
fn feed_next<S: Source>(
    input: &mut S,
    piece: &mut [u8],
    follower: &mut Follower,
) -> Result<usize, Halt>
    requires { 1 ≤ length piece.old }
    ensures fed { (fed : List ℕ) → IsFed fed follower.old → GoOn fed
        → (read : List ℕ) × Reads (S.at input.old).left read (S.at input.new).left
        × (length read ≤ length piece.old)
        × FedNext result fed read (S.at input.new).left follower.new }
    ensures source { ReadCause result (S.at input.old).faults (S.at input.new).faults }
    ensures no_sink { result ≢ Err Halt.WriteFault }
{
    let count = match input.read(piece) {
        Ok(count) => count,
        Err(Failed) => return Err(Halt::ReadFault),
    };
    feed_piece(follower, &piece[..count])?;
    Ok(count)
}

/// Feeds the bytes of a piece.
fn feed_piece(follower: &mut Follower, piece: &[u8]) -> Result<(), Halt>
    ensures fed { (fed : List ℕ) → IsFed fed follower.old
        → FedPiece result (fed ++ piece.now) follower.new }
    ensures no_source { result ≢ Err Halt.ReadFault }
    ensures no_sink { result ≢ Err Halt.WriteFault }
{
    let end = follower.feed(piece).end;
    end_of_feed(end)
}
