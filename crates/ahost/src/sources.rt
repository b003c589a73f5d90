//! The machine's own addresses, where the words name none.

use item_list::NoMemory;
use net_addr::{Addr, print};
use net_world::Files;
use own_addresses::own_addresses;
use std::alloc::Global;

/// The option by which the machine's addresses are named.
const SOURCES: &str = "--sources";

/// The options behind which those addresses have no effect.
const NO_SORT: &str = "--no-sort";

const LOAD: &str = "--load";

/// What closes the options: words behind it are names.
const CLOSING: &str = "--";

/// The value of `--sources` that is added to these words: the addresses of this machine with commas between them. There is
/// none where the words name the addresses themselves, where nothing is sorted, and where the machine tells none.
pub fn own_sources<F: Files>(
    alloc: Global,
    files: &mut F,
    words: &[&str],
) -> Result<Option<String>, NoMemory> {
    if is_decided(words) {
        return Ok(None);
    }
    let own = own_addresses(alloc, files)?;
    if own.is_empty() {
        return Ok(None);
    }
    list_of(alloc, own.as_slice())
}

/// Whether a word names the addresses, or says that they have no effect.
fn is_decided(words: &[&str]) -> bool {
    for word in words {
        if *word == CLOSING {
            return false;
        }
        if is_option(word, SOURCES) || is_option(word, NO_SORT) || is_option(word, LOAD) {
            return true;
        }
    }
    false
}

/// Whether a word is this option, alone or with a value behind `=`.
fn is_option(word: &str, option: &str) -> bool {
    match word.strip_prefix(option) {
        Some(rest) => rest.is_empty() || rest.as_bytes().first() == Some(&b'='),
        None => false,
    }
}

/// The texts of these addresses, with commas between them. All of it is ASCII, so there is a list.
fn list_of(alloc: Global, own: &[Addr]) -> Result<Option<String>, NoMemory> {
    let mut list = Vec::new(alloc);
    for address in own {
        if !list.is_empty() {
            list.push(b',')?;
        }
        list.extend_from_slice(print(alloc, *address)?.as_slice())?;
    }
    Ok(String::from_utf8(list).ok())
}

/// The words with that value before them, where there is one. The option stands first, so that no `--` is before it, and it
/// is no other option's value.
pub fn with_sources<'a>(
    alloc: Global,
    sources: &'a Option<String>,
    words: &[&'a str],
) -> Result<Vec<&'a str>, NoMemory> {
    let mut all = Vec::new(alloc);
    if let Some(sources) = sources {
        all.push(SOURCES)?;
        all.push(sources.as_str())?;
    }
    all.extend_from_slice(words)?;
    Ok(all)
}
