//! A run out of its text.

ghost use Rattle.std.specs.Prelude.{◌≡◌, Err, IfOk, IfErr, OnOk};
ghost use Rattle.journal_text.specs.Faults.{IsTextOf, IsReadAs, HasCause, IsShort};
ghost use Rattle.journal_text.specs.Drafts.{TakesLine, TakesNone};

use crate::book::Book;
use crate::cutting::cut_at;
use crate::draft::Draft;
use crate::fault::{BookFault, LineFault};
use crate::line_reading::read_line;
use std::alloc::Global;

/// The most bytes of a text, the most entries of a run, and the most bytes of its hosts file (this project's profile).
const TEXT_MOST: usize = 16_777_216;

const ENTRIES_MOST: usize = 4_096;

const HOSTS_MOST: usize = 4_194_304;

/// LF, which ends a line.
const LINE_FEED: u8 = b'\n';

/// The run whose text these bytes are. It is read in one pass.
pub fn read_book(alloc: Global, bytes: &[u8]) -> Result<Book, BookFault>
    ensures read { IfOk result (IsReadAs bytes.now) }
    ensures fault { IfErr result (HasCause bytes.now) }
{
    if bytes.len() > TEXT_MOST {
        return Err(BookFault::TooLarge);
    }
    let book = read_text(alloc, bytes)?;
    if book.journal.entries().len() > ENTRIES_MOST {
        return Err(BookFault::TooMany);
    }
    if book.hosts.len() > HOSTS_MOST {
        return Err(BookFault::BadHosts);
    }
    Ok(book)
}

/// The run whose text this is, of any size.
#[tactic(auto, using(crate::proofs::TextLemmas::read_start, crate::proofs::TextLemmas::read_limits))]
fn read_text(alloc: Global, text: &[u8]) -> Result<Book, BookFault>
    requires { IsShort text.now }
    ensures read { IfOk result (IsTextOf text.now) }
    ensures fault { IfErr result (HasCause text.now) }
{
    let mut draft = Draft::new(alloc);
    let mut rest = text;
    let mut lines = 0;
    'lines: while let Some((line, behind)) = cut_at(rest, LINE_FEED) {
        lines += 1;
        match add_line(alloc, &mut draft, line) {
            Ok(()) => {}
            Err(LineFault::Bad) => return Err(BookFault::BadLine(lines)),
            Err(LineFault::NoMemory) => return Err(BookFault::NoMemory),
        }
        rest = behind;
    }
    if rest.len() > 0 {
        return Err(BookFault::BadLine(lines + 1));
    }
    if !draft.is_ended() {
        return Err(BookFault::BadLine(lines + 1));
    }
    Ok(draft.into_book(alloc)?)
}

/// Adds what a line of a text says.
fn add_line(alloc: Global, draft: &mut Draft, line: &[u8]) -> Result<(), LineFault>
    ensures added { OnOk result (TakesLine line.now draft.old draft.new) }
    ensures refused { result ≡ Err LineFault.Bad → TakesNone line.now draft.old }
{
    draft.add(read_line(alloc, line)?)
}
