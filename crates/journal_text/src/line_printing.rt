//! The lines of a run as text, each with its line feed.

ghost use Rattle.std.specs.Prelude.{◌≡◌, ◌++◌, ◌∷◌, [], flat_map, OnOk, codes};
ghost use Rattle.chan_types.specs.declared.journal.Entry.{Entry as Happened};
ghost use Rattle.resolv_options.specs.Values.{OptionValues};
ghost use Rattle.journal_text.specs.Words.{spaced, lookups_number};
ghost use Rattle.journal_text.specs.Settings.{line_of_options, option_words};
ghost use Rattle.journal_text.specs.Lines.{line_text, ended_line};
ghost use Rattle.journal_text.specs.declared.line.Line.TheVariants.{Head, Set, Server, Domain, Source, Hosts, Event, End};
ghost use Rattle.journal_text.specs.BookText.{lines_text};

use crate::atom_printing::{
    flags_text, put_address, put_bytes, put_name, put_number, put_numbers, put_word,
};
use crate::entry_printing::put_entry;
use crate::request_printing::truth_of;
use chan_types::Entry;
use dns_message::Name;
use item_list::NoMemory;
use net_addr::{Addr, ServerAddr};
use resolv_options::{Lookups, Options};
use std::alloc::Global;

/// Ends a line.
fn end_line(text: &mut Vec<u8>) -> Result<(), NoMemory>
    ensures { OnOk result (text.new.items ≡ text.old.items ++ 10 ∷ []) }
{
    text.push(b'\n')?;
    Ok(())
}

/// Prints the line that says what the text is.
pub(crate) fn put_head(text: &mut Vec<u8>) -> Result<(), NoMemory>
    ensures { OnOk result (text.new.items ≡ text.old.items ++ ended_line (line_text Head)) }
{
    text.extend_from_slice(b"journal 1\n")?;
    Ok(())
}

/// Prints the line of the end.
pub(crate) fn put_end(text: &mut Vec<u8>) -> Result<(), NoMemory>
    ensures { OnOk result (text.new.items ≡ text.old.items ++ ended_line (line_text End)) }
{
    text.extend_from_slice(b"end\n")?;
    Ok(())
}

/// The number of where addresses are looked for.
fn lookups_of(lookups: Lookups) -> u64
    ensures { result ≡ lookups_number lookups }
{
    match lookups {
        Lookups::FilesDns => 0,
        Lookups::Dns => 1,
        Lookups::Files => 2,
    }
}

/// Prints the line of the options but for the lists.
pub(crate) fn put_options(text: &mut Vec<u8>, options: &Options) -> Result<(), NoMemory>
    ensures { OnOk result (text.new.items ≡ text.old.items ++ ended_line (line_text (Set (line_of_options options.now)))) }
{
    text.extend_from_slice(b"option")?;
    let times = [
        options.timeout() as u64,
        options.tries() as u64,
        options.ndots() as u64,
        options.max_timeout() as u64,
    ];
    put_numbers(text, &times)?;
    put_word(text, flags_text(&options.flags()).as_slice())?;
    let others = [
        truth_of(options.rotate()),
        lookups_of(options.lookups()),
        options.edns_size() as u64,
    ];
    put_numbers(text, &others)?;
    end_line(text)
}

/// Prints a line for each server.
pub(crate) fn put_servers(
    alloc: Global,
    text: &mut Vec<u8>,
    servers: &[ServerAddr],
) -> Result<(), NoMemory>
    ensures { OnOk result (text.new.items ≡ text.old.items ++ lines_text Server servers.now) }
{
    for server in servers {
        text.extend_from_slice(b"server")?;
        put_address(alloc, text, server.address)?;
        put_number(text, server.port as u64)?;
        end_line(text)?;
    }
    Ok(())
}

/// Prints a line for each domain.
pub(crate) fn put_domains(
    alloc: Global,
    text: &mut Vec<u8>,
    domains: &[Name],
) -> Result<(), NoMemory>
    ensures { OnOk result (text.new.items ≡ text.old.items ++ lines_text Domain domains.now) }
{
    for name in domains {
        text.extend_from_slice(b"domain")?;
        put_name(alloc, text, name)?;
        end_line(text)?;
    }
    Ok(())
}

/// Prints a line for each source.
pub(crate) fn put_sources(
    alloc: Global,
    text: &mut Vec<u8>,
    sources: &[Addr],
) -> Result<(), NoMemory>
    ensures { OnOk result (text.new.items ≡ text.old.items ++ lines_text Source sources.now) }
{
    for address in sources {
        text.extend_from_slice(b"source")?;
        put_address(alloc, text, *address)?;
        end_line(text)?;
    }
    Ok(())
}

/// Prints the line of the hosts file's bytes.
pub(crate) fn put_hosts(alloc: Global, text: &mut Vec<u8>, bytes: &[u8]) -> Result<(), NoMemory>
    ensures { OnOk result (text.new.items ≡ text.old.items ++ ended_line (line_text (Hosts bytes.now))) }
{
    text.extend_from_slice(b"hosts")?;
    put_bytes(alloc, text, bytes)?;
    end_line(text)
}

/// Prints a line for each entry.
pub(crate) fn put_entries(
    alloc: Global,
    text: &mut Vec<u8>,
    entries: &[Entry],
) -> Result<(), NoMemory>
    ensures { OnOk result (text.new.items ≡ text.old.items ++ lines_text Event entries.now) }
{
    for entry in entries {
        put_entry(alloc, text, entry)?;
        end_line(text)?;
    }
    Ok(())
}
