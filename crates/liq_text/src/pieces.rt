//! A line, word by word. A word that is missing or not what it is to be is noted, and told at the
//! end.

ghost use Rattle.std.specs.Prelude.{◌≡◌, ◌≢◌, ◌==◌, ◌<◌, ◌∷◌, ◌&&◌, [], false, not, length, position, IfSome, MatchOption};
ghost use Rattle.liq_text.specs.Reading.{an_account, a_number, a_hint, pieces_of, is_empty, others};
ghost use Rattle.liq_text.specs.Pieces.{pieces_left, rest_pieces, first_word, value_read, fails};

use crate::values;
use liq_types::HintWords;

/// The words of a line that have not been read yet.
#[derive(Drop)]
pub(crate) struct Pieces<'a> {
    /// What stands behind the last space that was passed; nothing once the last word was taken.
    rest: Option<&'a [u8]>,
    /// Whether a word was missing, or stood for nothing of the kind that was asked for.
    has_failed: bool,
}

impl<'a> Pieces<'a> {
    #[tactic(auto, unfolding(crate::specs::Pieces::rest_pieces))]
    pub(crate) fn new(line: &'a [u8]) -> Self
        ensures left { pieces_left result ≡ pieces_of line.now }
        ensures well { result.has_failed ≡ false }
    {
        Pieces {
            rest: Some(line),
            has_failed: false,
        }
    }

    /// The next word, which is empty where none is left.
    pub(crate) fn next(&mut self) -> &'a [u8]
        ensures word { result.now ≡ first_word (pieces_left self.old) }
        ensures left { pieces_left self.new ≡ others (pieces_left self.old) }
        ensures same { self.new.has_failed ≡ self.old.has_failed }
    {
        match self.rest {
            Some(line) => {
                let (first, rest) = split_first(line);
                self.rest = rest;
                first
            }
            None => &[],
        }
    }

    /// Whether all that was asked for was there, and no word is left.
    pub(crate) fn is_done(&self) -> bool
        ensures { result ≡ (not self.now.has_failed && is_empty (pieces_left self.now)) }
    {
        !self.has_failed && self.rest.is_none()
    }

    /// The account that the next word stands for. Where it stands for none, the reader has failed
    /// for good.
    pub(crate) fn account(&mut self) -> u32
        ensures value { result ≡ value_read an_account (pieces_left self.old) }
        ensures left { pieces_left self.new ≡ others (pieces_left self.old) }
        ensures failed { self.new.has_failed ≡ fails an_account self.old.has_failed
            (pieces_left self.old) }
    {
        match values::account(self.next()) {
            Some(account) => account,
            None => {
                self.has_failed = true;
                0
            }
        }
    }

    /// The number that the next word stands for. Where it stands for none, the reader has failed
    /// for good.
    pub(crate) fn number(&mut self) -> u64
        ensures value { result ≡ value_read a_number (pieces_left self.old) }
        ensures left { pieces_left self.new ≡ others (pieces_left self.old) }
        ensures failed { self.new.has_failed ≡ fails a_number self.old.has_failed
            (pieces_left self.old) }
    {
        match values::number(self.next()) {
            Some(number) => number,
            None => {
                self.has_failed = true;
                0
            }
        }
    }

    /// The hint that the next word stands for. Where it stands for none, the reader has failed for
    /// good.
    pub(crate) fn hint(&mut self) -> Option<u32>
        ensures value { result ≡ value_read a_hint (pieces_left self.old) }
        ensures left { pieces_left self.new ≡ others (pieces_left self.old) }
        ensures failed { self.new.has_failed ≡ fails a_hint self.old.has_failed
            (pieces_left self.old) }
    {
        match values::hint(self.next()) {
            Some(hint) => hint,
            None => {
                self.has_failed = true;
                None
            }
        }
    }

    /// The next two as hints: the trove before and the one after.
    pub(crate) fn hints(&mut self) -> HintWords
        ensures value { result ≡ record {
          prev = value_read a_hint (pieces_left self.old);
          next = value_read a_hint (others (pieces_left self.old));
        } }
        ensures left { pieces_left self.new ≡ others (others (pieces_left self.old)) }
        ensures failed { self.new.has_failed ≡ fails a_hint (fails a_hint self.old.has_failed
            (pieces_left self.old)) (others (pieces_left self.old)) }
    {
        HintWords {
            prev: self.hint(),
            next: self.hint(),
        }
    }
}

/// The words of a line that has four, with one space between two: none exactly where it has fewer
/// or more.
#[tactic(auto, unfolding(crate::specs::Pieces::rest_pieces))]
pub fn four_words(line: &[u8]) -> Option<(&[u8], &[u8], &[u8], &[u8])>
    ensures { MatchOption result (length (pieces_of line.now) ≢ 4)
        (λ words. pieces_of line.now ≡ words.0.now ∷ words.1.now ∷ words.2.now ∷ words.3.now ∷ []) }
{
    let (first, rest) = split_first(line);
    let (second, rest) = split_first(rest?);
    let (third, rest) = split_first(rest?);
    let (fourth, rest) = split_first(rest?);
    if rest.is_some() {
        return None;
    }
    Some((first, second, third, fourth))
}

/// The first word, and what stands behind its space where there is one.
pub(crate) fn split_first(line: &[u8]) -> (&[u8], Option<&[u8]>)
    ensures { pieces_of line.now ≡ result.0.now ∷ rest_pieces result.1 }
{
    match space_in(line) {
        None => (line, None),
        Some(at) => (&line[..at], Some(&line[at + 1..])),
    }
}

fn space_in(line: &[u8]) -> Option<usize>
    ensures first { result ≡ position (λ b. b == 32) line.now }
    ensures within { IfSome result (λ at. at < length line.now) }
{
    line.iter().position(|b| *b == b' ')
}
