//! The lines of a run's text out of their bytes.

ghost use Rattle.std.specs.Prelude.{◌≡◌, ◌++◌, ◌∷◌, IfOk};
ghost use Rattle.journal_text.specs.Lines.{line_text, line_words};
ghost use Rattle.journal_text.specs.Entries.{behind_first};
ghost use Rattle.journal_text.specs.Settings.{option_words};
ghost use Rattle.journal_text.specs.Fits.{FitsLine, FitsOptionLine};
ghost use Rattle.journal_text.specs.Reads.{Gives, Is, Took};
ghost use Rattle.journal_text.specs.LineReading as meaning;

use crate::atom_reading::{
    read_address, read_bytes, read_flags, read_lookups, read_name, read_number, read_truth,
};
use crate::entry_reading::{read_entry, read_server_addr};
use crate::fault::LineFault;
use crate::line::{Line, OptionLine};
use crate::word_reading::Words;
use std::alloc::Global;

/// The greatest numbers of the options (this project's profile), and the least size that an OPT record offers.
const TIMEOUT_MOST: u64 = 60_000;

const TRIES_MOST: u64 = 10;

const NDOTS_MOST: u64 = 15;

const MAX_TIMEOUT_MOST: u64 = 3_600_000;

const SIZE_MOST: u64 = 65_535;

const SIZE_LEAST: u16 = 512;

/// The line that these bytes are, which have no line feed.
#[tactic(auto, using(crate::proofs::WordsLemmas::joined_again))]
pub(crate) fn read_line(alloc: Global, line: &[u8]) -> Result<Line, LineFault>
    ensures value { Is result (meaning.line_of line.now) }
    ensures spelled { IfOk result (λ found. (line.now ≡ line_text found) × FitsLine found) }
{
    let mut words = Words::of(line);
    let found = read_words(alloc, &mut words)?;
    match words.next() {
        None => Ok(found),
        Some(_) => Err(LineFault::Bad),
    }
}

/// The line that begins these words: an entry begins with a number, any other line with its key word.
#[tactic(auto, unfolding(crate::specs::LineReading::line_from, crate::specs::LineReading::event_from))]
fn read_words(alloc: Global, words: &mut Words<'_>) -> Result<Line, LineFault>
    ensures value { Gives (λ line. line) result words.new (meaning.line_from words.old) }
    ensures took { Took line_words FitsLine words.old result words.new }
{
    if words.begin_with_digit() {
        return Ok(Line::Event(read_entry(alloc, words)?));
    }
    let kind = words.next_word()?;
    read_keyed(alloc, kind, words)
}

/// A line with this key word, out of the words behind it.
#[tactic(auto, unfolding(crate::specs::LineReading::keyed_from, crate::specs::LineReading::set_from, crate::specs::LineReading::head_from, crate::specs::LineReading::server_from, crate::specs::LineReading::domain_from, crate::specs::LineReading::source_from, crate::specs::LineReading::hosts_from))]
fn read_keyed(alloc: Global, kind: &[u8], words: &mut Words<'_>) -> Result<Line, LineFault>
    ensures value { Gives (λ line. line) result words.new (meaning.keyed_from kind.now words.old) }
    ensures took { IfOk result (λ line. (kind.now ∷ words.old ≡ line_words line ++ words.new) × FitsLine line) }
{
    if kind == b"journal".as_slice() {
        return if words.take_if(b"1") {
            Ok(Line::Head)
        } else {
            Err(LineFault::Bad)
        };
    }
    if kind == b"option".as_slice() {
        return Ok(Line::Set(read_options(words)?));
    }
    if kind == b"server".as_slice() {
        return Ok(Line::Server(read_server_addr(alloc, words)?));
    }
    if kind == b"domain".as_slice() {
        return Ok(Line::Domain(read_name(alloc, words)?));
    }
    if kind == b"source".as_slice() {
        return Ok(Line::Source(read_address(alloc, words)?));
    }
    if kind == b"hosts".as_slice() {
        return Ok(Line::Hosts(read_bytes(alloc, words)?));
    }
    if kind == b"end".as_slice() {
        return Ok(Line::End);
    }
    Err(LineFault::Bad)
}

/// The options but for the lists, within their limits.
#[tactic(auto, unfolding(crate::specs::LineReading::option_from))]
fn read_options(words: &mut Words<'_>) -> Result<OptionLine, LineFault>
    ensures value { Gives (λ line. line) result words.new (meaning.option_from words.old) }
    ensures took { Took (λ line. behind_first (option_words line)) FitsOptionLine words.old result words.new }
{
    let line = OptionLine {
        timeout: read_number(words, TIMEOUT_MOST)? as u32,
        tries: read_number(words, TRIES_MOST)? as u8,
        ndots: read_number(words, NDOTS_MOST)? as u8,
        max_timeout: read_number(words, MAX_TIMEOUT_MOST)? as u32,
        flags: read_flags(words)?,
        rotate: read_truth(words)?,
        lookups: read_lookups(words)?,
        edns_size: read_number(words, SIZE_MOST)? as u16,
    };
    if line.timeout == 0 || line.tries == 0 || line.edns_size < SIZE_LEAST {
        return Err(LineFault::Bad);
    }
    Ok(line)
}
