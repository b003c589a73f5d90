//! The entries of a journal out of their words.

ghost use Rattle.std.specs.Prelude.{◌≡◌, ◌++◌, ◌∷◌, [], codes, flat_map, decimal, IfOk};
ghost use Rattle.std.specs.List.{AllByRecursion};
ghost use Rattle.net_addr.specs.Text.{text_of as address_text};
ghost use Rattle.journal_text.specs.Entries.{entry_words, what_words, key_words};
ghost use Rattle.journal_text.specs.Fits.{FitsEntry, FitsWhat, FitsKey, FitsServer};
ghost use Rattle.journal_text.specs.Reads.{Gives, Is, Took, TookBehind};
ghost use Rattle.journal_text.specs.EntryReading as meaning;

use crate::atom_reading::{address_of, number_of, read_address, read_bytes, read_mix, read_number};
use crate::fault::LineFault;
use crate::request_reading::read_spec;
use crate::script_reading::read_script;
use crate::word_reading::Words;
use chan_types::{Entry, KeyList, ServerKey, What};
use net_addr::ServerAddr;
use std::alloc::Global;

/// How deep scripts nest.
const MOST_DEPTH: u64 = 4;

/// The greatest numbers of 8, 16 and 32 bits.
const MOST8: u64 = u8::MAX as u64;

const MOST16: u64 = u16::MAX as u64;

const MOST32: u64 = u32::MAX as u64;

/// An entry.
#[tactic(auto, unfolding(crate::specs::EntryReading::entry_from))]
pub(crate) fn read_entry(alloc: Global, words: &mut Words<'_>) -> Result<Entry, LineFault>
    ensures value { Gives (λ entry. entry) result words.new (meaning.entry_from words.old) }
    ensures took { Took entry_words FitsEntry words.old result words.new }
{
    let seat = read_number(words, u64::MAX)?;
    let by = read_number(words, u64::MAX)?;
    let what = read_what(alloc, words)?;
    Ok(Entry { seat, by, what })
}

/// What happened, by its kind.
#[tactic(auto, unfolding(crate::specs::EntryReading::what_from))]
fn read_what(alloc: Global, words: &mut Words<'_>) -> Result<What, LineFault>
    ensures value { Gives (λ what. what) result words.new (meaning.what_from words.old) }
    ensures took { Took what_words FitsWhat words.old result words.new }
{
    let kind = words.next_word()?;
    if kind == b"accept".as_slice() {
        return read_accept(alloc, words);
    }
    if kind == b"cancel".as_slice() {
        return Ok(What::Cancel);
    }
    if kind == b"destroy".as_slice() {
        return Ok(What::Destroy);
    }
    if kind == b"take".as_slice() {
        return read_take(words);
    }
    if kind == b"start".as_slice() {
        return read_start(words);
    }
    if kind == b"arrive".as_slice() {
        return read_arrive(alloc, words);
    }
    if kind == b"expire".as_slice() {
        return read_expire(words);
    }
    if kind == b"fault".as_slice() {
        return read_fault(words);
    }
    if kind == b"servers".as_slice() {
        return read_servers(alloc, words);
    }
    Err(LineFault::Bad)
}

/// The fields of an Accept.
#[tactic(auto, unfolding(crate::specs::EntryReading::accept_from))]
fn read_accept(alloc: Global, words: &mut Words<'_>) -> Result<What, LineFault>
    ensures value { Gives (λ what. what) result words.new (meaning.accept_from words.old) }
    ensures took { TookBehind (codes "accept") what_words FitsWhat words.old result words.new }
{
    let number = read_number(words, u64::MAX)?;
    let spec = read_spec(alloc, words)?;
    let script = read_script(alloc, words, MOST_DEPTH)?;
    Ok(What::Accept {
        number,
        spec,
        script,
    })
}

/// The field of a Take.
#[tactic(auto, unfolding(crate::specs::EntryReading::take_from))]
fn read_take(words: &mut Words<'_>) -> Result<What, LineFault>
    ensures value { Gives (λ what. what) result words.new (meaning.take_from words.old) }
    ensures took { TookBehind (codes "take") what_words FitsWhat words.old result words.new }
{
    Ok(What::Take {
        number: read_number(words, u64::MAX)?,
    })
}

/// The fields of a Start.
#[tactic(auto, unfolding(crate::specs::EntryReading::start_from))]
fn read_start(words: &mut Words<'_>) -> Result<What, LineFault>
    ensures value { Gives (λ what. what) result words.new (meaning.start_from words.old) }
    ensures took { TookBehind (codes "start") what_words FitsWhat words.old result words.new }
{
    Ok(What::Start {
        number: read_number(words, u64::MAX)?,
        leg: read_number(words, MOST8)? as u8,
        server: read_number(words, MOST32)? as u32,
        link: read_number(words, u64::MAX)?,
        id: read_number(words, MOST16)? as u16,
        mix: read_mix(words)?,
        moment: read_number(words, u64::MAX)?,
    })
}

/// The fields of an Arrive.
#[tactic(auto, unfolding(crate::specs::EntryReading::arrive_from))]
fn read_arrive(alloc: Global, words: &mut Words<'_>) -> Result<What, LineFault>
    ensures value { Gives (λ what. what) result words.new (meaning.arrive_from words.old) }
    ensures took { TookBehind (codes "arrive") what_words FitsWhat words.old result words.new }
{
    Ok(What::Arrive {
        server: read_number(words, MOST32)? as u32,
        link: read_number(words, u64::MAX)?,
        bytes: read_bytes(alloc, words)?,
    })
}

/// The fields of an Expire.
#[tactic(auto, unfolding(crate::specs::EntryReading::expire_from))]
fn read_expire(words: &mut Words<'_>) -> Result<What, LineFault>
    ensures value { Gives (λ what. what) result words.new (meaning.expire_from words.old) }
    ensures took { TookBehind (codes "expire") what_words FitsWhat words.old result words.new }
{
    Ok(What::Expire {
        number: read_number(words, u64::MAX)?,
        leg: read_number(words, MOST8)? as u8,
        moment: read_number(words, u64::MAX)?,
    })
}

/// The fields of a Fault.
#[tactic(auto, unfolding(crate::specs::EntryReading::fault_from))]
fn read_fault(words: &mut Words<'_>) -> Result<What, LineFault>
    ensures value { Gives (λ what. what) result words.new (meaning.fault_from words.old) }
    ensures took { TookBehind (codes "fault") what_words FitsWhat words.old result words.new }
{
    Ok(What::Fault {
        server: read_number(words, MOST32)? as u32,
        link: read_number(words, u64::MAX)?,
        moment: read_number(words, u64::MAX)?,
    })
}

/// The servers of a new list, up to the end of the line.
#[tactic(auto, unfolding(crate::specs::EntryReading::servers_from))]
fn read_servers(alloc: Global, words: &mut Words<'_>) -> Result<What, LineFault>
    ensures value { Gives (λ what. what) result words.new (meaning.servers_from words.old) }
    ensures took { TookBehind (codes "servers") what_words FitsWhat words.old result words.new }
{
    Ok(What::Servers {
        list: read_keys(alloc, words)?,
    })
}

/// Servers with their keys, up to the end of the line.
#[tactic(auto, unfolding(crate::specs::EntryReading::keys_from))]
fn read_keys(alloc: Global, words: &mut Words<'_>) -> Result<KeyList, LineFault>
    ensures value { Is result (meaning.keys_from words.old) }
    ensures took { IfOk result (λ list. (words.old ≡ flat_map key_words list) × AllByRecursion FitsKey list
        × (words.new ≡ [])) }
{
    let mut list = KeyList::new(alloc);
    'servers: while let Some(key) = words.next() {
        let address = words.next_word()?;
        let port = words.next_word()?;
        list.push(key_of(alloc, key, address, port)?)?;
    }
    Ok(list)
}

/// The server with this key, address and port.
#[tactic(auto, unfolding(crate::specs::EntryReading::key_in))]
fn key_of(alloc: Global, key: &[u8], address: &[u8], port: &[u8]) -> Result<ServerKey, LineFault>
    ensures value { Is result (meaning.key_in key.now address.now port.now) }
    ensures spelled { IfOk result (λ server. (key.now ≡ decimal server.key)
        × (address.now ≡ address_text server.address.address) × (port.now ≡ decimal server.address.port)
        × FitsKey server) }
{
    let key = number_of(MOST32, key)? as u32;
    let address = address_of(alloc, address)?;
    let port = number_of(MOST16, port)? as u16;
    Ok(ServerKey {
        key,
        address: ServerAddr { address, port },
    })
}

/// An address and a port.
#[tactic(auto, unfolding(crate::specs::EntryReading::server_addr_from))]
pub(crate) fn read_server_addr(
    alloc: Global,
    words: &mut Words<'_>,
) -> Result<ServerAddr, LineFault>
    ensures value { Gives (λ server. server) result words.new (meaning.server_addr_from words.old) }
    ensures took { Took (λ server. address_text server.address ∷ decimal server.port ∷ []) FitsServer words.old result words.new }
{
    Ok(ServerAddr {
        address: read_address(alloc, words)?,
        port: read_number(words, MOST16)? as u16,
    })
}
