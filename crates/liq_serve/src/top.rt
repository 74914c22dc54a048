//! The top call: what the program does, whatever its words are.
//!
//! ```text
//! words --> read_words --> serve -------> serve_input: from `protocol` alone, as it wants threads
//!                     |--> other word --> carry_out: the word's own crate
//!                     `--> none, or no memory to read them: the disks are not asked
//! each way ends with a status, a last line where it has one, and both disks given back
//! ```
//!
//! It takes the words, a source, a sink and two disks, and its one clause is `Ends`
//! (specs/Top.antt), for each list of words. `Ends` says of each status and word what was read and
//! written, what the disks hold, what a crash at any moment may leave of them, and whose fault
//! gave that status. What follows from it is in `laws`.
//!
//! Each end of a word has its status and its last line (`ending` of `liq_word_exit`). At 0 all is
//! done, and at 4 the sink met a fault: these two have no last line. Words that are not understood
//! end with 1 and the usage. Words that the system did not give have clauses of their own, those of
//! [`without_words`].
//!
//! Two names are alike: `liq_serve` is this whole program, and `liq_word_serve` is the word
//! `serve`.

ghost use Rattle.std.specs.Prelude.{◌≡◌, ◌≢◌, ◌≤◌, ◌↔◌, ◌⊎◌, IfOk, IsTrue, List, ℕ, Ok, Err, map, []};
ghost use Rattle.std.specs.String.{string_bytes};
ghost use Rattle.liq_outside.specs.Faults.{Rose};
ghost use Rattle.liq_word_line.specs.declared.words.Word.{Word};
ghost use Rattle.liq_word_line.specs.Words.{Ask, IsInRange};
ghost use Rattle.liq_word_exit.specs.declared.halts.Halt.{Halt};
ghost use Rattle.liq_word_exit.specs.Output.{last, usage};
ghost use Rattle.liq_word_exit.specs.Statuses.{status_of};
ghost use Rattle.liq_word_exit.specs.Stops.{Adds};
ghost use Rattle.liq_serve.specs.Top.{Ends};

use crate::answers::{StakeForm, TagForm, answer_on};
use crate::serve::end_of;
use liq_outside::{Disk, Sink, Source};
use liq_sessions::Gate;
use liq_word_arguments::{WordsFault, read_words};
use liq_word_exit::{Ending, Halt, status, tell_last, write_last, write_usage};
use liq_word_follow::follow_on;
use liq_word_gen::tell_load;
use liq_word_line::Word;
use liq_word_run::run_on;
use liq_word_serve::{Finished, serve_input};
use liq_word_state::{Text, tell_on};
use std::alloc::Global;
use std::io::ErrorKind;
use std::marker::Brand;
use std::sync::Wait;
use std::sync::ledger::Blank;
use std::thread::Threads;

/// What the top call answers: the exit status, and the disks as it leaves them.
#[derive(Drop)]
pub struct Ended<D> {
    pub status: u8,
    pub left: D,
    pub right: D,
}

/// Does what the words ask for, and waits for nobody but the sessions of `serve`. It is
/// [`without_threads`] for all other words. Of the input no more is taken than 1,000,000 lines of
/// 201 bytes, and what one read asks for; for `follow`, than 2^28 bytes and one.
///
/// For `serve` each line of the input has a session from 1 to 8 in front of its request. The input
/// is read to its end before a disk is touched; then each session's lines are answered in order,
/// all sessions' at once, and `gate` is told of each call. The replies are written session by
/// session, and behind them the one history along which they are those of the protocol for one
/// thread.
pub fn protocol<S: Source, K: Sink, D: Disk + Send, G: Gate + Sync, R: Threads + Wait + Sync>(
    rt: &R,
    alloc: Global,
    gate: &G,
    words: &[String],
    input: &mut S,
    out: &mut K,
    left: D,
    right: D,
) -> Ended<D>
    ensures { Ends S.at K.at D.at
        (record { source = input.old; sink = out.old; left = left; right = right })
        (record { source = input.new; sink = out.new; left = result.left; right = result.right })
        result.status (map string_bytes words.now) }
{
    let read = read_words(alloc, words);
    if is_serve(&read) {
        let Finished {
            left,
            right,
            finish,
        } = serve_input(rt, alloc, gate, input, out, left, right);
        let end = end_of(finish);
        tell_last(out, end);
        return with_status(Ending { end, left, right });
    }
    // odd: answer named
    let ended = answer_words(alloc, words, read, input, out, left, right);
    ended
}

/// Whether the words ask for `serve`.
fn is_serve(read: &Result<Word, WordsFault>) -> bool
    ensures { IsTrue result ↔ read.now ≡ Ok Word.Serve }
{
    matches!(read, Ok(Word::Serve))
}

/// Does what the words ask for, which is not `serve`. The exit status is:
///
/// - 0: all is done and written;
/// - 1: the words are not understood; nothing was read;
/// - 2: a line is no request, or, for `staking`, none on which a staker asks, or, for `rewards`,
///   none that names a front end;
/// - 3: the source met a fault;
/// - 4: the sink met a fault at a reply, or at what a load, `state`, `report`, `audit`, `staking`,
///   `rewards` or `follow` tells;
/// - 5: a disk met a fault;
/// - 6: a disk is damaged, or the journal that comes in;
/// - 7: there was no memory;
/// - 8: there are more than 1,000,000 lines, or more bytes than are followed, or a limit of the
///   audit is passed;
/// - 9: the journal was rotated, so that there is no audit, lines have no answer, and it can't be
///   followed.
///
/// For `run` each line of the input is a request, and its reply is written once its call has
/// answered; what is accepted is on the disks by then. For `gen` a seed's calls are carried out on
/// a protocol of their own, and a line tells where they lead; nothing is read, and the disks stay.
/// For `state` what stands on the disks is told, for `report` each trove and deposit as it stands,
/// and for `audit` what each depositor has beside its exact share, if the journal is of the first
/// generation; nothing is read. For `follow` the input is a journal of the first generation, and
/// what stands at its end is told; the disks stay.
///
/// For `staking` the whole input is read first, each line a staker's; then stakers are answered
/// beside the commands on the disks, if the journal is of the first generation. For `rewards` each
/// line names a depositor's front end, and all rewards are told. The disks stay.
///
/// At a status other than 0 and 4 a last line says so behind what was written.
pub fn without_threads<S: Source, K: Sink, D: Disk>(
    alloc: Global,
    words: &[String],
    input: &mut S,
    out: &mut K,
    left: D,
    right: D,
) -> Ended<D>
    // The words are not just `serve`.
    requires { Ask (map string_bytes words.now) Word.Serve → ⊥ }
    ensures { Ends S.at K.at D.at
        (record { source = input.old; sink = out.old; left = left; right = right })
        (record { source = input.new; sink = out.new; left = result.left; right = result.right })
        result.status (map string_bytes words.now) }
{
    let read = read_words(alloc, words);
    answer_words(alloc, words, read, input, out, left, right)
}

/// Does what the words ask for, once they are read.
fn answer_words<S: Source, K: Sink, D: Disk>(
    alloc: Global,
    _words: &[String],
    read: Result<Word, WordsFault>,
    input: &mut S,
    out: &mut K,
    left: D,
    right: D,
) -> Ended<D>
    requires range { IfOk read IsInRange }
    requires other { read ≢ Ok Word.Serve }
    requires word { IfOk read (Ask (map string_bytes _words.now)) }
    requires only { (word : Word) → Ask (map string_bytes _words.now) word
        → (read ≡ Ok word) ⊎ (read ≡ Err WordsFault.NoMemory) }
    requires usage { (read ≡ Err WordsFault.Usage)
        ↔ ((word : Word) → Ask (map string_bytes _words.now) word → ⊥) }
    ensures { Ends S.at K.at D.at
        (record { source = input.old; sink = out.old; left = left; right = right })
        (record { source = input.new; sink = out.new; left = result.left; right = result.right })
        result.status (map string_bytes _words.now) }
{
    match read {
        Ok(word) => with_status(carry_out(alloc, word, input, out, left, right)),
        Err(fault) => {
            let status = end_unread(fault, out);
            Ended {
                status,
                left,
                right,
            }
        }
    }
}

/// Carries out a word, and writes the last line where that stops.
fn carry_out<S: Source, K: Sink, D: Disk>(
    alloc: Global,
    word: Word,
    input: &mut S,
    out: &mut K,
    left: D,
    right: D,
) -> Ending<D>
    requires range { IsInRange word }
    requires other { word ≢ Word.Serve }
    ensures { (words : List (List ℕ)) → Ask words word
        → ((other : Word) → Ask words other → word ≡ other)
        → Ends S.at K.at D.at
        (record { source = input.old; sink = out.old; left = left; right = right })
        (record { source = input.new; sink = out.new; left = result.left; right = result.right })
        (status_of result.end) words }
{
    match word {
        Word::Run => run_on(alloc, input, out, left, right),
        Word::Serve => unreachable!(),
        Word::Staking => answer_on::<StakeForm, S, K, D>(alloc, input, out, left, right),
        Word::Rewards => answer_on::<TagForm, S, K, D>(alloc, input, out, left, right),
        Word::State => tell_on(alloc, Text::State, out, left, right),
        Word::Audit => tell_on(alloc, Text::Audit, out, left, right),
        Word::Report => tell_on(alloc, Text::Report, out, left, right),
        Word::Follow => {
            let end = follow_on(alloc, input, out);
            Ending { end, left, right }
        }
        Word::Gen { seed, count } => {
            // odd: steps counted
            let end = tell_load::<Brand, K>(alloc, seed, count, out, Blank::new(1));
            Ending { end, left, right }
        }
    }
}

/// The status of a word that ended, and the disks as it leaves them.
fn with_status<D>(ending: Ending<D>) -> Ended<D>
    ensures { result
        ≡ record { status = status_of ending.end; left = ending.left; right = ending.right } }
{
    let Ending { end, left, right } = ending;
    let status = status(&end);
    Ended {
        status,
        left,
        right,
    }
}

/// Ends a run whose words the system did not give. Where there was no memory for them, the status
/// is 7; else one of them is no text, so that they are not understood, and it is 1. The line of
/// that status is written.
pub fn without_words<K: Sink>(fault: ErrorKind, out: &mut K) -> u8
    ensures no_memory { fault ≡ ErrorKind.OutOfMemory → (result ≡ 7)
        × Adds [] (last Halt.NoMemory) (Rose (K.at out.old).faults (K.at out.new).faults)
        (K.at out.old).held (K.at out.new).held }
    ensures usage { fault ≢ ErrorKind.OutOfMemory → (result ≡ 1)
        × Adds [] usage (Rose (K.at out.old).faults (K.at out.new).faults)
        (K.at out.old).held (K.at out.new).held }
{
    match fault {
        ErrorKind::OutOfMemory => end_unread(WordsFault::NoMemory, out),
        _ => end_unread(WordsFault::Usage, out),
    }
}

/// Ends a run whose words were not read, and writes the line of its status.
fn end_unread<K: Sink>(fault: WordsFault, out: &mut K) -> u8
    ensures no_memory { fault ≡ WordsFault.NoMemory → (result ≡ 7)
        × Adds [] (last Halt.NoMemory) (Rose (K.at out.old).faults (K.at out.new).faults)
        (K.at out.old).held (K.at out.new).held }
    ensures unshown { fault ≡ WordsFault.NoMemory → (K.at out.new).shown ≡ (K.at out.old).shown }
    ensures usage { fault ≡ WordsFault.Usage → (result ≡ 1)
        × Adds [] usage (Rose (K.at out.old).faults (K.at out.new).faults)
        (K.at out.old).held (K.at out.new).held }
    ensures count { (K.at out.old).faults ≤ (K.at out.new).faults }
{
    match fault {
        WordsFault::Usage => {
            write_usage(out);
            1
        }
        WordsFault::NoMemory => {
            write_last(out, Halt::NoMemory);
            status(&Err(Halt::NoMemory))
        }
    }
}
