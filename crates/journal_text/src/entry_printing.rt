//! The entries of a journal as text.

ghost use Rattle.std.specs.Prelude.{◌≡◌, ◌++◌, flat_map, OnOk};
ghost use Rattle.journal_text.specs.Words.{spaced};
ghost use Rattle.journal_text.specs.Entries.{entry_words, what_words, key_words};
ghost use Rattle.journal_text.specs.Words.{joined};

use crate::atom_printing::{
    put_address, put_bytes, put_first_number, put_mix, put_number, put_numbers, put_word,
};
use crate::request_printing::put_spec;
use crate::script_printing::put_script;
use chan_types::{Entry, ServerKey, What};
use item_list::NoMemory;
use std::alloc::Global;

/// Prints an entry.
pub(crate) fn put_entry(alloc: Global, text: &mut Vec<u8>, entry: &Entry) -> Result<(), NoMemory>
    ensures { OnOk result (text.new.items ≡ text.old.items ++ joined (entry_words entry.now)) }
{
    put_first_number(text, entry.seat)?;
    put_number(text, entry.by)?;
    put_what(alloc, text, &entry.what)
}

/// Prints what happened, each word behind a blank.
#[tactic(auto, using(crate::proofs::WordTextLemmas::spaced_two))]
fn put_what(alloc: Global, text: &mut Vec<u8>, what: &What) -> Result<(), NoMemory>
    ensures { OnOk result (text.new.items ≡ text.old.items ++ flat_map spaced (what_words what.now)) }
{
    match what {
        What::Accept {
            number,
            spec,
            script,
        } => {
            put_word(text, b"accept")?;
            put_number(text, *number)?;
            put_spec(alloc, text, spec)?;
            put_script(alloc, text, script)
        }
        What::Cancel => put_word(text, b"cancel"),
        What::Destroy => put_word(text, b"destroy"),
        What::Take { number } => {
            put_word(text, b"take")?;
            put_number(text, *number)
        }
        What::Start {
            number,
            leg,
            server,
            link,
            id,
            mix,
            moment,
        } => {
            put_word(text, b"start")?;
            let numbers = [*number, *leg as u64, *server as u64, *link, *id as u64];
            put_numbers(text, &numbers)?;
            put_mix(text, *mix)?;
            put_number(text, *moment)
        }
        What::Arrive {
            server,
            link,
            bytes,
        } => {
            put_word(text, b"arrive")?;
            put_numbers(text, &[*server as u64, *link])?;
            put_bytes(alloc, text, bytes.as_slice())
        }
        What::Expire {
            number,
            leg,
            moment,
        } => {
            put_word(text, b"expire")?;
            put_numbers(text, &[*number, *leg as u64, *moment])
        }
        What::Fault {
            server,
            link,
            moment,
        } => {
            put_word(text, b"fault")?;
            put_numbers(text, &[*server as u64, *link, *moment])
        }
        What::Servers { list } => {
            put_word(text, b"servers")?;
            put_keys(alloc, text, list.as_slice())
        }
    }
}

/// Prints servers with their keys, each word behind a blank.
fn put_keys(alloc: Global, text: &mut Vec<u8>, list: &[ServerKey]) -> Result<(), NoMemory>
    ensures { OnOk result (text.new.items ≡ text.old.items ++ flat_map spaced (flat_map key_words list.now)) }
{
    for server in list {
        put_number(text, server.key as u64)?;
        put_address(alloc, text, server.address.address)?;
        put_number(text, server.address.port as u64)?;
    }
    Ok(())
}
