//! A lawful journal of requests that are answered one behind the other.

use crate::failed::Failed;
use crate::requests::options_of;
use chan_types::{Bytes, Entry, Journal, Script, Spec, What};
use dns_message::numbers::{CLASS_IN, KIND_A};
use journal_text::Book;
use std::alloc::Global;

/// One server (resolv.conf(5)).
const RESOLV: &[u8] = b"nameserver 192.0.2.53\n";

/// The reply with identifier 7 and the address 192.0.2.1 to a query for example.com (RFC 1035, section 4.1).
const REPLY: &[u8] =
    b"\0\x07\x81\x80\0\x01\0\x01\0\0\0\0\x07example\x03com\0\0\x01\0\x01\xc0\x0c\0\x01\0\x01\0\0\0\x3c\0\x04\xc0\0\x02\x01";

/// The entry of this, by seat 0 and on nobody's command.
fn entry(what: What) -> Entry {
    Entry {
        seat: 0,
        by: 0,
        what,
    }
}

/// The entry that accepts the request of this number.
fn accept(alloc: Global, number: u64) -> Result<Entry, Failed> {
    Ok(entry(What::Accept {
        number,
        spec: Spec::Query {
            name: Bytes::of(alloc, b"example.com")?,
            kind: KIND_A,
            class: CLASS_IN,
        },
        script: Script::blank(alloc, 0),
    }))
}

/// The entry that begins its attempt.
fn start(number: u64) -> Entry {
    entry(What::Start {
        number,
        leg: 0,
        server: 0,
        link: 0,
        id: 7,
        mix: None,
        moment: 0,
    })
}

/// The entry of its reply.
fn reply(alloc: Global) -> Result<Entry, Failed> {
    Ok(entry(What::Arrive {
        server: 0,
        link: 0,
        bytes: Bytes::of(alloc, REPLY)?,
    }))
}

/// The entries in which so many requests are accepted, begun, answered and taken, one behind the other.
fn answered(alloc: Global, requests: u64) -> Result<Vec<Entry>, Failed> {
    let mut journal = Vec::new(alloc);
    add_all(alloc, &mut journal, requests)?;
    Ok(journal)
}

/// Adds the entries of so many requests.
fn add_all(alloc: Global, journal: &mut Vec<Entry>, requests: u64) -> Result<(), Failed> {
    for index in 0..requests {
        add(alloc, journal, index + 1)?;
    }
    Ok(())
}

/// Adds the entries in which this request is accepted, begun, answered and taken.
fn add(alloc: Global, journal: &mut Vec<Entry>, number: u64) -> Result<(), Failed> {
    push(journal, accept(alloc, number)?)?;
    push(journal, start(number))?;
    push(journal, reply(alloc)?)?;
    push(journal, entry(What::Take { number }))
}

/// Adds an entry.
fn push(journal: &mut Vec<Entry>, entry: Entry) -> Result<(), Failed> {
    Ok(journal.push(entry)?)
}

/// The run of a channel with one server and an empty hosts file, in which so many requests are answered.
pub fn run_of(alloc: Global, requests: u64) -> Result<Book, Failed> {
    let journal = answered(alloc, requests)?;
    Ok(Book {
        options: options_of(alloc, RESOLV)?,
        hosts: Bytes::new(alloc),
        journal: Journal::from_vec(journal),
    })
}
