//! What the readers of files say: of resolv.conf, the hosts file, zones and runs.

use crate::records::put_line;
use crate::telling::{put, put_fault};
use chan_types::Journal;
use dns_message::{Bytes, Name, NameList};
use hosts_file::{Family, Hosts};
use item_list::NoMemory;
use journal_text::{Book, print_book, read_book};
use net_addr::print;
use resolv_options::{Options, read_resolv};
use std::alloc::Global;
use test_nameserver::Zone;
use text_lines::{lines_in, read_names, words_in};

/// Puts what a resolv.conf sets.
pub fn put_resolv(alloc: Global, out: &mut Vec<u8>, text: &[u8]) -> Result<(), NoMemory> {
    match read_resolv(alloc, text) {
        Ok(options) => put_options(alloc, out, options),
        Err(fault) => put_fault(alloc, out, &fault),
    }
}

/// Puts options as the text of a run without entries that has them.
fn put_options(alloc: Global, out: &mut Vec<u8>, options: Options) -> Result<(), NoMemory> {
    let book = Book {
        options,
        hosts: Bytes::new(alloc),
        journal: Journal::from_vec(Vec::new(alloc)),
    };
    put(out, print_book(alloc, &book)?.as_slice())
}

/// Puts a run's text once more.
pub fn put_run(alloc: Global, out: &mut Vec<u8>, text: &[u8]) -> Result<(), NoMemory> {
    match read_book(alloc, text) {
        Ok(book) => put(out, print_book(alloc, &book)?.as_slice()),
        Err(fault) => put_fault(alloc, out, &fault),
    }
}

/// Puts the lines of a zone's records.
pub fn put_zone(alloc: Global, out: &mut Vec<u8>, text: &[u8]) -> Result<(), NoMemory> {
    match Zone::read(alloc, text) {
        Ok(zone) => put_records(alloc, out, &zone),
        Err(fault) => put_fault(alloc, out, &fault),
    }
}

/// Puts the lines of records.
fn put_records(alloc: Global, out: &mut Vec<u8>, zone: &Zone) -> Result<(), NoMemory> {
    for item in zone.records() {
        put_line(alloc, out, item)?;
    }
    Ok(())
}

/// Puts what a hosts file says of each word of it that is a name.
pub fn put_hosts(alloc: Global, out: &mut Vec<u8>, text: &[u8]) -> Result<(), NoMemory> {
    match Hosts::read(alloc, text) {
        Ok(hosts) => put_lines(alloc, out, text, &hosts),
        Err(fault) => put_fault(alloc, out, &fault),
    }
}

/// Puts what the hosts file says of each word of the text that is a name.
fn put_lines(alloc: Global, out: &mut Vec<u8>, text: &[u8], hosts: &Hosts) -> Result<(), NoMemory> {
    for line in lines_in(text) {
        let names = read_names(alloc, words_in(alloc, line)?.as_slice())?;
        put_names(alloc, out, &names, hosts)?;
    }
    Ok(())
}

/// Puts what the hosts file says of each name.
fn put_names(
    alloc: Global,
    out: &mut Vec<u8>,
    names: &NameList,
    hosts: &Hosts,
) -> Result<(), NoMemory> {
    for name in names.as_slice() {
        put_host(alloc, out, name, hosts)?;
    }
    Ok(())
}

/// Puts the addresses of a name, and its canonical name.
fn put_host(alloc: Global, out: &mut Vec<u8>, name: &Name, hosts: &Hosts) -> Result<(), NoMemory> {
    put(out, name.to_text(alloc)?.as_slice())?;
    for address in hosts.addresses(alloc, name, Family::Any)?.as_slice() {
        put(out, b" ")?;
        put(out, print(alloc, *address)?.as_slice())?;
    }
    put_canonical(alloc, out, hosts.canonical(alloc, name, Family::Any)?)?;
    put(out, b"\n")
}

/// Puts a canonical name, if there is one.
fn put_canonical(
    alloc: Global,
    out: &mut Vec<u8>,
    canonical: Option<Name>,
) -> Result<(), NoMemory> {
    match canonical {
        Some(name) => {
            put(out, b" is ")?;
            put(out, name.to_text(alloc)?.as_slice())
        }
        None => Ok(()),
    }
}
