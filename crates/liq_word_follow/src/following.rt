//! A journal that comes in, followed, and what stands at its end, told.

ghost use Rattle.std.specs.Prelude.{List, ℕ};
ghost use Rattle.liq_outside.specs.Faults.{Rose};
ghost use Rattle.liq_text_lines.specs.Reading.{Reads};
ghost use Rattle.liq_word_exit.specs.Causes.{LastCause, ReadCause, WriteCause};
ghost use Rattle.liq_word_exit.specs.Telling.{TellsAll};
ghost use Rattle.liq_word_exit.specs.Unsaid.{WritesAll};
ghost use Rattle.liq_word_follow.specs.Followed.{FollowsTo};

use crate::feeding::feed_input;
use liq_follower::Follower;
use liq_follower::laws::followers_stand;
use liq_outside::{Sink, Source};
use liq_word_exit::{Halt, tell_last};
use liq_word_state::write_standing;
use std::alloc::Global;

/// Follows the journal that the input is, at most its first 2^28 bytes, and tells what stands at
/// its end. It writes the last line where that stops. It holds no more of the input than one piece
/// and one record.
pub fn follow_on<S: Source, K: Sink>(alloc: Global, input: &mut S, out: &mut K) -> Result<(), Halt>
    ensures followed { (read : List ℕ) × Reads (S.at input.old).left read (S.at input.new).left
        × ((text : List ℕ) × FollowsTo result read (S.at input.new).left text
        × TellsAll text result (Rose (K.at out.old).faults (K.at out.new).faults)
        (K.at out.old).held (K.at out.new).held) }
    ensures source { ReadCause result (S.at input.old).faults (S.at input.new).faults }
    ensures sink { LastCause result (K.at out.old).faults (K.at out.new).faults }
{
    let end = follow(alloc, input, out);
    tell_last(out, end);
    end
}

/// The same without the last line.
fn follow<S: Source, K: Sink>(alloc: Global, input: &mut S, out: &mut K) -> Result<(), Halt>
    ensures followed { (read : List ℕ) × Reads (S.at input.old).left read (S.at input.new).left
        × ((text : List ℕ) × FollowsTo result read (S.at input.new).left text
        × WritesAll text result (K.at out.old).held (K.at out.new).held) }
    ensures source { ReadCause result (S.at input.old).faults (S.at input.new).faults }
    ensures sink { WriteCause result (K.at out.old).faults (K.at out.new).faults }
{
    let mut follower = Follower::new(alloc);
    feed_input(alloc, input, &mut follower)?;
    // odd: law called
    followers_stand(&follower);
    write_standing(alloc, follower.protocol(), out)
}
