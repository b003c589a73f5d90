//! What a request asks, out of its words.

ghost use Rattle.std.specs.Prelude.{◌≡◌, ◌++◌};
ghost use Rattle.journal_text.specs.Requests.{spec_words};
ghost use Rattle.journal_text.specs.Fits.{FitsSpec};
ghost use Rattle.journal_text.specs.Reads.{Gives, Took};
ghost use Rattle.journal_text.specs.RequestReading as meaning;

use crate::atom_reading::{read_address, read_bytes, read_family, read_number, read_truth};
use crate::fault::LineFault;
use crate::word_reading::Words;
use chan_types::Spec;
use std::alloc::Global;

/// The words that begin a request.
#[tactic(auto, unfolding(crate::specs::RequestReading::spec_from, crate::specs::RequestReading::named_from, crate::specs::RequestReading::host_from, crate::specs::RequestReading::reverse_from))]
pub(crate) fn read_spec(alloc: Global, words: &mut Words<'_>) -> Result<Spec, LineFault>
    ensures value { Gives (λ spec. spec) result words.new (meaning.spec_from words.old) }
    ensures took { Took spec_words FitsSpec words.old result words.new }
{
    let kind = words.next_word()?;
    if kind == b"q".as_slice() {
        return Ok(Spec::Query {
            name: read_bytes(alloc, words)?,
            kind: read_number(words, 0xffff)? as u16,
            class: read_number(words, 0xffff)? as u16,
        });
    }
    if kind == b"s".as_slice() {
        return Ok(Spec::Search {
            name: read_bytes(alloc, words)?,
            kind: read_number(words, 0xffff)? as u16,
            class: read_number(words, 0xffff)? as u16,
        });
    }
    if kind == b"a".as_slice() {
        return Ok(Spec::Address {
            host: read_bytes(alloc, words)?,
            family: read_family(words)?,
            nosort: read_truth(words)?,
        });
    }
    if kind == b"r".as_slice() {
        return Ok(Spec::Reverse {
            address: read_address(alloc, words)?,
        });
    }
    Err(LineFault::Bad)
}
