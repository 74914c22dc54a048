//! The word `run`, with the last line of one that stops.

ghost use Rattle.std.specs.Prelude.{◌≡◌, ◌≢◌, List, ℕ, Some, Err};
ghost use Rattle.liq_outside.specs.Faults.{Rose};
ghost use Rattle.liq_types.specs.declared.amounts.TheConstants.{LINES_MOST};
ghost use Rattle.liq_word_exit.specs.declared.halts.Halt.{Halt};
ghost use Rattle.liq_word_exit.specs.Causes.{HasCauses};
ghost use Rattle.liq_word_exit.specs.Disks.{OfDamage, OfState};
ghost use Rattle.liq_word_exit.specs.Stops.{EndsIn, StopsDamaged};
ghost use Rattle.liq_text_lines.specs.Reading.{taken_most, ReadsAtMost};

use crate::run::run_input;
use liq_outside::{Disk, Sink, Source};
use liq_word_exit::{Ending, write_last};
use std::alloc::Global;

/// Answers the input's lines, and writes the last line of a run that stops.
pub fn run_on<S, K, D>(alloc: Global, input: &mut S, out: &mut K, left: D, right: D) -> Ending<D>
where
    S: Source,
    K: Sink,
    D: Disk,
    ensures run { OfState D.at left right (λ l r start.
        EndsIn D.at left right start result.end (S.at input.old).left l r (S.at input.new).left
        (Rose (K.at out.old).faults (K.at out.new).faults) (K.at out.old).held (K.at out.new).held
        (K.at out.old).shown (K.at out.new).shown result.left result.right) }
    // Over damaged disks nothing is read.
    ensures damaged { OfDamage D.at left right (λ l r side damage. (input.new ≡ input.old)
        × StopsDamaged D.at left right l r side damage result.end
        (Rose (K.at out.old).faults (K.at out.new).faults) (K.at out.old).held (K.at out.new).held
        result.left result.right) }
    // No more is taken from the source than 1,000,000 lines of 201 bytes, and what one read asks
    // for.
    ensures few { ReadsAtMost (taken_most LINES_MOST) (S.at input.old).left (S.at input.new).left }
    ensures causes { HasCauses S.at K.at D.at
        (record { source = input.old; sink = out.old; left = left; right = right })
        (record { source = input.new; sink = out.new; left = result.left; right = result.right })
        result.end }
    // It goes on in whatever generation.
    ensures goes_on { (generation : ℕ) → result.end ≢ Err (Halt.Rotated generation) }
{
    let ending = run_input(alloc, input, out, left, right);
    if let Err(halt) = ending.end {
        write_last(out, halt);
    }
    ending
}
