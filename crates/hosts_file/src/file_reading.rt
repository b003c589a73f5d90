//! A hosts file, line by line.

ghost use Rattle.std.specs.Prelude.{◌≡◌, ◌++◌, ◌<◌, ◌≤◌, ◌↔◌, ◌∷◌, [], Err, length, map, option_to_list, IfOk, OnOk, MatchOption};
ghost use Rattle.hosts_file.specs.File.{line_of, host_of_line, host_of_words, hosts_of};

use crate::fault::HostsFault;
use crate::hosts::{HostLine, Hosts};
use crate::index::index_of;
use dns_message::{Name, NameList};
use item_list::NoMemory;
use net_addr::Addr;
use std::alloc::Global;
use text_lines::{before_comment, lines_in, read_names, words_before_comment};

/// The most bytes of a hosts file (this project's profile).
const FILE_MOST: usize = 4_194_304;

/// The first of some names, and the others.
fn cut_first(names: NameList) -> Option<(Name, NameList)>
    ensures { MatchOption result (names ≡ []) (λ cut. names ≡ cut.0 ∷ cut.1) }
{
    if names.is_empty() {
        return None;
    }
    let mut names = names.into_vec();
    let first = names.remove(0);
    Some((first, NameList::from_vec(names)))
}

/// What a line says that gives these names an address.
fn host_line(address: Addr, names: NameList) -> Option<HostLine>
    ensures { result ≡ line_of address names }
{
    match cut_first(names) {
        Some((canonical, aliases)) => Some(HostLine {
            address,
            canonical,
            aliases,
        }),
        None => None,
    }
}

/// What a line of these words says, if it gives an address a name.
fn read_words(alloc: Global, words: &[&[u8]]) -> Result<Option<HostLine>, NoMemory>
    ensures { IfOk result (λ line. line ≡ host_of_words (map (λ word. word.now) words.now)) }
{
    match words.split_first() {
        Some((word, others)) => match net_addr::read(word) {
            Some(address) => Ok(host_line(address, read_names(alloc, others)?)),
            None => Ok(None),
        },
        None => Ok(None),
    }
}

/// Adds what a line says, if it gives an address a name.
fn add_line(alloc: Global, hosts: &mut Vec<HostLine>, line: &[u8]) -> Result<(), NoMemory>
    ensures { OnOk result (hosts.new.items ≡ hosts.old.items ++ option_to_list (host_of_line line.now)) }
{
    let words = words_before_comment(alloc, before_comment(line))?;
    match read_words(alloc, words.as_slice())? {
        Some(host) => {
            hosts.push(host)?;
            Ok(())
        }
        None => Ok(()),
    }
}

/// What the lines of a text say.
fn read_lines(alloc: Global, text: &[u8]) -> Result<Hosts, NoMemory>
    requires { length text.now ≤ 4194304 }
    ensures { IfOk result (λ hosts. hosts ≡ hosts_of text.now) }
{
    let mut hosts = Vec::new(alloc);
    for line in lines_in(text) {
        add_line(alloc, &mut hosts, line)?;
    }
    let names = index_of(alloc, hosts.as_slice())?;
    Ok(Hosts {
        lines: hosts,
        names,
    })
}

impl Hosts {
    /// What a hosts file says. Lines that give no address a name are passed over, and words that aren't names too.
    pub fn read(alloc: Global, bytes: &[u8]) -> Result<Hosts, HostsFault>
        ensures read { IfOk result (λ hosts. hosts ≡ hosts_of bytes.now) }
        // A file above the limit is refused, and no other.
        ensures large { (result ≡ Err HostsFault.TooLarge) ↔ (4194304 < length bytes.now) }
    {
        if bytes.len() > FILE_MOST {
            return Err(HostsFault::TooLarge);
        }
        Ok(read_lines(alloc, bytes)?)
    }
}
