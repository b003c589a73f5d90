//! The whole run of the program.

ghost use Rattle.std.specs.Prelude.{◌≡◌, ◌≤◌, IfSome, None, length, map};
ghost use Rattle.channel_model.specs.Lawful.{IsLawful};
ghost use Rattle.tool_line.specs.Outside.{files_told};
ghost use Rattle.areplay_tool.specs.Page.{lawful_page, setting_of_book, unlawful_line};
ghost use Rattle.areplay_tool.specs.Put.{IsPut};
ghost use Rattle.areplay_tool.specs.Replay.{AreRefused, ForPath, IsPathOf, IsReplay, TellsBook, TellsFault, TellsFile, TellsText, file_fault_line, usage_line};

use crate::ending::End;
use crate::paging;
use crate::putting::put;
use item_list::NoMemory;
use journal_replay::{Checked, check};
use journal_text::{Book, BookFault, read_book};
use net_world::{FileRead, Files, Sink};
use std::alloc::Global;

/// The most bytes of a run's text (this project's profile).
const TEXT_MOST: u64 = 16_777_216;

/// Reads the stored run of the file that the words name, checks its journal, and puts what its requests came to, or
/// which entry isn't allowed. The exit status is 0 where the journal is lawful, and 1 where it isn't.
pub fn run<F: Files, K: Sink>(alloc: Global, words: &[&str], files: &mut F, sink: &mut K) -> u8
    // Words that aren't one path are refused, and no file is read.
    ensures refused { AreRefused (map (λ word. word.now) words.now) → (files.new ≡ files.old) × IsPut usage_line 2 result
        (record { bytes = K.bytes sink.old; faults = K.faults sink.old; puts = K.puts sink.old })
        (record { bytes = K.bytes sink.new; faults = K.faults sink.new; puts = K.puts sink.new }) }

    // One path: its file is read once, and what is put follows from what that answers.
    ensures replays { ForPath (map (λ word. word.now) words.now) (λ path. IsReplay path result
        (files_told (F.files files.old) (F.faults files.old) (F.reads files.old))
        (files_told (F.files files.new) (F.faults files.new) (F.reads files.new))
        (record { bytes = K.bytes sink.old; faults = K.faults sink.old; puts = K.puts sink.old })
        (record { bytes = K.bytes sink.new; faults = K.faults sink.new; puts = K.puts sink.new })) }

    // The files stay as they are.
    ensures files { F.files files.new ≡ F.files files.old }
{
    match path_of(words) {
        Some(path) => replay(alloc, path, files, sink),
        None => put(sink, b"areplay: usage\n", End::Usage),
    }
}

/// The path that the words are, if they are one that isn't empty.
fn path_of<'a>(words: &[&'a str]) -> Option<&'a str>
    ensures path { IfSome result (λ path. IsPathOf (map (λ word. word.now) words.now) path.now) }
    ensures only { result ≡ None → AreRefused (map (λ word. word.now) words.now) }
{
    let [path] = words else {
        return None;
    };
    if path.is_empty() { None } else { Some(path) }
}

/// Reads the file of this path, checks the journal that it has, and puts what comes of it.
fn replay<F: Files, K: Sink>(alloc: Global, path: &str, files: &mut F, sink: &mut K) -> u8
    ensures replays { IsReplay path.now result
        (files_told (F.files files.old) (F.faults files.old) (F.reads files.old))
        (files_told (F.files files.new) (F.faults files.new) (F.reads files.new))
        (record { bytes = K.bytes sink.old; faults = K.faults sink.old; puts = K.puts sink.old })
        (record { bytes = K.bytes sink.new; faults = K.faults sink.new; puts = K.puts sink.new }) }
    ensures files { F.files files.new ≡ F.files files.old }
{
    match files.read(path, TEXT_MOST) {
        Ok(file) => tell_file(alloc, &file, sink),
        Err(NoMemory) => End::OutOfMemory.number(),
    }
}

/// Puts what comes of a file that was read.
fn tell_file<K: Sink>(alloc: Global, file: &FileRead, sink: &mut K) -> u8
    ensures { TellsFile file.now result
        (record { bytes = K.bytes sink.old; faults = K.faults sink.old; puts = K.puts sink.old })
        (record { bytes = K.bytes sink.new; faults = K.faults sink.new; puts = K.puts sink.new }) }
{
    match file {
        FileRead::Content(text) => tell_text(alloc, text.as_slice(), sink),
        FileRead::Absent | FileRead::Large | FileRead::Failed => tell_file_fault(sink),
    }
}

/// Puts that a file can't be read.
fn tell_file_fault<K: Sink>(sink: &mut K) -> u8
    ensures { IsPut file_fault_line 3 result
        (record { bytes = K.bytes sink.old; faults = K.faults sink.old; puts = K.puts sink.old })
        (record { bytes = K.bytes sink.new; faults = K.faults sink.new; puts = K.puts sink.new }) }
{
    put(sink, b"areplay: file fault\n", End::FileFault)
}

/// Puts what comes of a text.
fn tell_text<K: Sink>(alloc: Global, text: &[u8], sink: &mut K) -> u8
    ensures { TellsText text.now result
        (record { bytes = K.bytes sink.old; faults = K.faults sink.old; puts = K.puts sink.old })
        (record { bytes = K.bytes sink.new; faults = K.faults sink.new; puts = K.puts sink.new }) }
{
    match read_book(alloc, text) {
        Ok(book) => tell_book(alloc, &book, sink),
        Err(fault) => tell_fault(fault, sink),
    }
}

/// Puts that a text is no run's.
fn tell_fault<K: Sink>(fault: BookFault, sink: &mut K) -> u8
    ensures { TellsFault fault result
        (record { bytes = K.bytes sink.old; faults = K.faults sink.old; puts = K.puts sink.old })
        (record { bytes = K.bytes sink.new; faults = K.faults sink.new; puts = K.puts sink.new }) }
{
    match fault {
        BookFault::TooLarge => tell_file_fault(sink),
        BookFault::BadLine(_) | BookFault::TooMany | BookFault::BadHosts => {
            put(sink, b"areplay: bad book\n", End::BadBook)
        }
        BookFault::NoMemory => End::OutOfMemory.number(),
    }
}

/// Checks the journal of a stored run, and puts what comes of it.
fn tell_book<K: Sink>(alloc: Global, book: &Book, sink: &mut K) -> u8
    requires few { length book.now.hosts ≤ 4194304 }
    ensures { TellsBook book.now result
        (record { bytes = K.bytes sink.old; faults = K.faults sink.old; puts = K.puts sink.old })
        (record { bytes = K.bytes sink.new; faults = K.faults sink.new; puts = K.puts sink.new }) }
{
    let hosts = book.hosts.as_slice();
    match check(alloc, &book.options, hosts, book.journal.entries()) {
        Ok(Checked::Lawful) => tell_lawful(alloc, book, sink),
        Ok(Checked::Unlawful(position)) => tell_unlawful(alloc, position, sink),
        Err(NoMemory) => End::OutOfMemory.number(),
    }
}

/// Puts the page of a lawful journal.
fn tell_lawful<K: Sink>(alloc: Global, book: &Book, sink: &mut K) -> u8
    requires few { length book.now.hosts ≤ 4194304 }
    requires lawful { IsLawful (setting_of_book book.now) book.now.journal }
    ensures { IsPut (lawful_page (setting_of_book book.now) book.now.journal) 0 result
        (record { bytes = K.bytes sink.old; faults = K.faults sink.old; puts = K.puts sink.old })
        (record { bytes = K.bytes sink.new; faults = K.faults sink.new; puts = K.puts sink.new }) }
{
    match paging::lawful_page(alloc, book) {
        Ok(page) => put(sink, page.as_slice(), End::Lawful),
        Err(NoMemory) => End::OutOfMemory.number(),
    }
}

/// Puts the position of an entry that isn't allowed.
fn tell_unlawful<K: Sink>(alloc: Global, position: u64, sink: &mut K) -> u8
    ensures { IsPut (unlawful_line position) 1 result
        (record { bytes = K.bytes sink.old; faults = K.faults sink.old; puts = K.puts sink.old })
        (record { bytes = K.bytes sink.new; faults = K.faults sink.new; puts = K.puts sink.new }) }
{
    match paging::unlawful_line(alloc, position) {
        Ok(line) => put(sink, line.as_bytes(), End::Unlawful),
        Err(NoMemory) => End::OutOfMemory.number(),
    }
}
