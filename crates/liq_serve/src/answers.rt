//! The words `staking` and `rewards`: lines are answered beside the commands on two disks.

ghost use Rattle.std.specs.Prelude.{◌≡◌, ◌≤◌, ℕ, List, [], Err, length};
ghost use Rattle.liq_outside.specs.Faults.{Rose};
ghost use Rattle.liq_types.specs.declared.amounts.TheConstants.{LINES_MOST};
ghost use Rattle.liq_types.specs.declared.requests.Command.{Command};
ghost use Rattle.liq_text_lines.specs.Reading.{taken_most, ReadsAtMost};
ghost use Rattle.liq_word_exit.specs.Causes.{DisksGoOn, HasCauses, LastCause};
ghost use Rattle.liq_word_exit.specs.Output.{last};
ghost use Rattle.liq_word_exit.specs.Stops.{Adds};
ghost use Rattle.liq_word_state.specs.Answers.{AreFew, asked_text};
ghost use Rattle.liq_serve.specs.Top.{AnswersLines};
ghost use Rattle.liq_serve.specs.Finishing.{halt_at};

use crate::serve::halt_at;
use liq_fees::{StakeLine, read_stake_line};
use liq_outside::{Disk, Sink, Source};
use liq_rewards::{TagLine, read_tag_line};
use liq_text_gather::{Form, gather};
use liq_text_lines::Stop;
use liq_word_exit::{Ending, Halt, write_last};
use liq_word_state::{Asked, Text, tell_on};
use std::alloc::Global;

/// A form of lines that are answered beside the commands on two disks.
pub(crate) trait Asking: Form {
    /// What is answered to lines, beside these commands from the opening under a limit on.
    ghost text: { ℕ → List Command → List Self.Item → List ℕ };

    /// Asks these lines.
    fn into_asked(lines: Vec<Self::Item>) -> Asked
        ensures text { (limit : ℕ) (commands : List Command)
            → asked_text result limit commands ≡ text limit commands lines.items }
        ensures few { length lines.items ≤ LINES_MOST → AreFew result };
}

/// Answers the lines of the input, each of this form. It is read to its end before a disk is
/// touched, and the last line is written where that stops.
pub(crate) fn answer_on<F: Asking, S: Source, K: Sink, D: Disk>(
    alloc: Global,
    input: &mut S,
    out: &mut K,
    left: D,
    right: D,
) -> Ending<D>
where
    F::Item: Drop,
    ensures answered { AnswersLines S.at K.at D.at
        (record { source = input.old; sink = out.old; left = left; right = right })
        (record { source = input.new; sink = out.new; left = result.left; right = result.right })
        F.says F.text result.end }
    ensures takes { ReadsAtMost (taken_most LINES_MOST)
        (S.at input.old).left (S.at input.new).left }
    ensures causes { HasCauses S.at K.at D.at
        (record { source = input.old; sink = out.old; left = left; right = right })
        (record { source = input.new; sink = out.new; left = result.left; right = result.right })
        result.end }
{
    match gather::<F, S>(alloc, input) {
        Ok(lines) => tell_on(alloc, Text::Answers(F::into_asked(lines)), out, left, right),
        Err(stop) => stopped(stop, out, left, right),
    }
}

/// The lines on which stakers ask.
pub(crate) struct StakeForm;

impl Form for StakeForm {
    ghost use Rattle.liq_fees.specs.Lines.{Spells};
    ghost use Rattle.liq_word_state.proofs.StakeLines.{stake_line_short};

    type Item = StakeLine;

    ghost says = { Spells };

    fn read(line: &[u8]) -> Option<StakeLine> {
        read_stake_line(line).ok()
    }

    ghost short = { stake_line_short };
}

/// Each line has its reply, and then it is told what each staker has.
impl Asking for StakeForm {
    ghost use Rattle.liq_text_staking.specs.Staked.{staked_text};

    ghost text = { staked_text };

    fn into_asked(lines: Vec<StakeLine>) -> Asked
        ensures text { (limit : ℕ) (commands : List Command)
            → asked_text result limit commands ≡ staked_text limit commands lines.items }
        ensures few { length lines.items ≤ LINES_MOST → AreFew result }
    {
        Asked::Stakes(lines)
    }
}

/// The lines on which depositors name front ends.
pub(crate) struct TagForm;

impl Form for TagForm {
    ghost use Rattle.liq_rewards.specs.Lines.{Spells};
    ghost use Rattle.liq_word_state.proofs.TagLines.{tag_line_short};

    type Item = TagLine;

    ghost says = { Spells };

    fn read(line: &[u8]) -> Option<TagLine> {
        read_tag_line(line).ok()
    }

    ghost short = { tag_line_short };
}

/// All rewards are told.
impl Asking for TagForm {
    ghost use Rattle.liq_text_rewards.specs.Rewarded.{rewarded_text};

    ghost text = { rewarded_text };

    fn into_asked(lines: Vec<TagLine>) -> Asked
        ensures text { (limit : ℕ) (commands : List Command)
            → asked_text result limit commands ≡ rewarded_text limit commands lines.items }
        ensures few { length lines.items ≤ LINES_MOST → AreFew result }
    {
        Asked::Tags(lines)
    }
}

/// Ends a word whose input was not read to its end: its last line is written, and the disks are as
/// they were.
fn stopped<K: Sink, D: Disk>(stop: Stop, out: &mut K, left: D, right: D) -> Ending<D>
    ensures ending { result ≡ record { end = Err (halt_at stop); left = left; right = right } }
    ensures written { Adds [] (last (halt_at stop))
        (Rose (K.at out.old).faults (K.at out.new).faults) (K.at out.old).held (K.at out.new).held }
    ensures sink { LastCause result.end (K.at out.old).faults (K.at out.new).faults }
    ensures disks { DisksGoOn D.at left right result.end result.left result.right }
{
    let halt = halt_at(stop);
    write_last(out, halt);
    Ending {
        end: Err(halt),
        left,
        right,
    }
}
