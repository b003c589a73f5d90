//! A line of a zone's text.

ghost use Rattle.std.specs.Prelude.{◌≡◌, map, IfOk};
ghost use Rattle.test_nameserver.specs.Lines as meaning;
ghost use Rattle.test_nameserver.specs.Words.{words_of};

use crate::rdata_words::{kind_in, rdata_in};
use crate::words::{number_up_to, words_in};
use dns_message::Record;
use dns_message::numbers::CLASS_IN;
use item_list::NoMemory;
use std::alloc::Global;
use text_lines::read_name;

/// The greatest time to live (RFC 2181, section 8).
const TTL_MOST: u32 = 2_147_483_647;

/// What begins a line that says nothing.
const HASH: u8 = b'#';

/// Whether the line says nothing: it is empty, or begins with `#`.
pub(crate) fn is_comment(line: &[u8]) -> bool
    ensures { result ≡ meaning.is_comment line.now }
{
    match line {
        [] => true,
        [first, ..] => *first == HASH,
    }
}

/// The record of a line that says something, if it has the form.
pub(crate) fn record_in(alloc: Global, line: &[u8]) -> Result<Option<Record>, NoMemory>
    ensures { IfOk result (λ found. found ≡ meaning.record_of_words (words_of line.now)) }
{
    let words = words_in(alloc, line)?;
    record_of_words(alloc, words.as_slice())
}

/// The record of these words: a name, a time to live, a type, and a value.
fn record_of_words(alloc: Global, words: &[&[u8]]) -> Result<Option<Record>, NoMemory>
    ensures { IfOk result (λ found. found ≡ meaning.record_of_words (map (λ word. word.now) words.now)) }
{
    let [name, ttl, kind, values @ ..] = words else {
        return Ok(None);
    };
    let Some(name) = read_name(alloc, name)? else {
        return Ok(None);
    };
    let Some(ttl) = number_up_to(TTL_MOST, ttl) else {
        return Ok(None);
    };
    let Some(kind) = kind_in(kind) else {
        return Ok(None);
    };
    let Some(rdata) = rdata_in(alloc, kind, values)? else {
        return Ok(None);
    };
    Ok(Some(Record {
        name,
        kind,
        class: CLASS_IN,
        ttl,
        rdata,
    }))
}
