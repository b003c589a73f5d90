//! The words of a line, taken one after the other.

ghost use Rattle.std.specs.Prelude.{◌≡◌, ◌∷◌, [], IfOk, IfErr, MatchBool, MatchOption, false};
ghost use Rattle.journal_text.specs.LineReading.{words_of, next_is_number};
ghost use Rattle.journal_text.specs.LineReading as meaning;
ghost use Rattle.journal_text.specs.Reads.{begins_with};
ghost use Rattle.journal_text.specs.WordsLeft.{words_behind};

use crate::cutting::cut_at;
use crate::fault::LineFault;
use std::marker::Model;

/// The blank that stands between words.
const BLANK: u8 = b' ';

/// The words of a line that are still to come. Contracts see the list of them.
#[derive(Drop)]
pub(crate) struct Words<'a> {
    /// The line behind the words so far. There is none where the last word was taken.
    rest: Option<&'a [u8]>,
}

impl<'a> Model for Words<'a> {
    ghost use Rattle.std.specs.Prelude.{List};
    ghost use Rattle.journal_text.specs.Words.{Word};
    ghost use Rattle.journal_text.specs.WordsLeft.{words_behind};

    ghost Value = { List Word };

    ghost view = { λ words. words_behind words.rest };
}

/// The first word of a line, and the line behind it, where a blank ends the word.
#[tactic(auto, using(crate::proofs::CutLemmas::one_part))]
fn cut_word(line: &[u8]) -> (&[u8], Option<&[u8]>)
    ensures { words_of line.now ≡ result.0.now ∷ words_behind result.1 }
{
    match cut_at(line, BLANK) {
        Some((word, rest)) => (word, Some(rest)),
        None => (line, None),
    }
}

impl<'a> Words<'a> {
    /// The words of a line.
    pub(crate) fn of(line: &'a [u8]) -> Words<'a>
        ensures { result ≡ words_of line.now }
    {
        Words { rest: Some(line) }
    }

    /// The next word; none where all were taken.
    pub(crate) fn next(&mut self) -> Option<&'a [u8]>
        ensures { MatchOption result ((self.old ≡ []) × (self.new ≡ [])) (λ word. self.old ≡ word.now ∷ self.new) }
    {
        let (word, rest) = cut_word(self.rest?);
        self.rest = rest;
        Some(word)
    }

    /// The next word, where there has to be one.
    pub(crate) fn next_word(&mut self) -> Result<&'a [u8], LineFault>
        ensures word { IfOk result (λ word. self.old ≡ word.now ∷ self.new) }
        ensures none { IfErr result (λ fault. (fault ≡ LineFault.Bad) × (self.old ≡ [])) }
    {
        match self.next() {
            Some(word) => Ok(word),
            None => Err(LineFault::Bad),
        }
    }

    /// Takes the next word if it is this one.
    pub(crate) fn take_if(&mut self, word: &[u8]) -> bool
        ensures { MatchBool result (self.old ≡ word.now ∷ self.new)
            ((begins_with word.now self.old ≡ false) × (self.new ≡ self.old)) }
    {
        let Some(line) = self.rest else {
            return false;
        };
        let (first, rest) = cut_word(line);
        if first != word {
            return false;
        }
        self.rest = rest;
        true
    }

    /// Whether the next word begins with a decimal digit.
    pub(crate) fn begin_with_digit(&self) -> bool
        ensures { result ≡ next_is_number self.now }
    {
        match self.rest {
            None => false,
            Some(line) => begins_with_digit(cut_word(line).0),
        }
    }
}

/// Whether the word begins with a decimal digit.
fn begins_with_digit(word: &[u8]) -> bool
    ensures { result ≡ meaning.begins_with_digit word.now }
{
    match word {
        [] => false,
        [first, ..] => first.is_ascii_digit(),
    }
}
