//! A run as text.

ghost use Rattle.std.specs.Prelude.{◌≡◌, IfOk};
ghost use Rattle.journal_text.specs.BookText.{text_of_book, text_of_run};

use crate::book::Book;
use crate::line_printing::{
    put_domains, put_end, put_entries, put_head, put_hosts, put_options, put_servers, put_sources,
};
use chan_types::Entry;
use item_list::{Bytes, NoMemory};
use resolv_options::Options;
use std::alloc::Global;

/// The text of a run.
pub fn print_book(alloc: Global, book: &Book) -> Result<Bytes, NoMemory>
    ensures { IfOk result (λ text. text ≡ text_of_book book.now) }
{
    print_run(
        alloc,
        &book.options,
        book.hosts.as_slice(),
        book.journal.entries(),
    )
}

/// The text of a run whose parts somebody else has. It is made in one pass over them.
pub fn print_run(
    alloc: Global,
    options: &Options,
    hosts: &[u8],
    entries: &[Entry],
) -> Result<Bytes, NoMemory>
    ensures { IfOk result (λ text. text ≡ text_of_run options.now hosts.now entries.now) }
{
    let mut text = Vec::new(alloc);
    put_head(&mut text)?;
    put_options(&mut text, options)?;
    put_servers(alloc, &mut text, options.servers().as_slice())?;
    put_domains(alloc, &mut text, options.domains().as_slice())?;
    put_sources(alloc, &mut text, options.sources().as_slice())?;
    put_hosts(alloc, &mut text, hosts)?;
    put_entries(alloc, &mut text, entries)?;
    put_end(&mut text)?;
    Ok(Bytes::from_vec(text))
}
