//! The rdata that the words behind a type are.

ghost use Rattle.std.specs.Prelude.{◌≡◌, ◌++◌, map, option_map, IfOk, OnOk};
ghost use Rattle.dns_message.specs.Spelling.{name_bytes};
ghost use Rattle.text_lines.specs.Names.{name_of};
ghost use Rattle.test_nameserver.specs.Lines as meaning;

use crate::words::number_up_to;
use dns_message::Name;
use dns_message::numbers::{KIND_A, KIND_AAAA, KIND_CNAME, KIND_MX, KIND_NS, KIND_PTR, KIND_TXT};
use item_list::{Bytes, NoMemory};
use net_addr::Addr;
use std::alloc::Global;
use text_lines::read_name;

/// The most bytes of a string (RFC 1035, section 3.3).
const STRING_MOST: usize = 255;

/// The greatest preference of an MX record: what its 16 bits hold (RFC 1035, section 3.3.9).
const PREFERENCE_MOST: u32 = 65_535;

/// The type that a word names.
pub(crate) fn kind_in(word: &[u8]) -> Option<u16>
    ensures { result ≡ meaning.kind_in word.now }
{
    match word {
        b"A" => Some(KIND_A),
        b"NS" => Some(KIND_NS),
        b"CNAME" => Some(KIND_CNAME),
        b"PTR" => Some(KIND_PTR),
        b"MX" => Some(KIND_MX),
        b"TXT" => Some(KIND_TXT),
        b"AAAA" => Some(KIND_AAAA),
        _ => None,
    }
}

/// The rdata that the words behind a type are: MX has two, the others one.
pub(crate) fn rdata_in(alloc: Global, kind: u16, words: &[&[u8]]) -> Result<Option<Bytes>, NoMemory>
    ensures { IfOk result (λ rdata. rdata ≡ meaning.rdata_of kind (map (λ word. word.now) words.now)) }
{
    match words {
        [word] if kind != KIND_MX => rdata_of_word(alloc, kind, word),
        [preference, exchange] if kind == KIND_MX => mx_rdata(alloc, preference, exchange),
        _ => Ok(None),
    }
}

/// The rdata that one word is, of a type that has one.
fn rdata_of_word(alloc: Global, kind: u16, word: &[u8]) -> Result<Option<Bytes>, NoMemory>
    ensures { IfOk result (λ rdata. rdata ≡ meaning.rdata_of_word kind word.now) }
{
    match kind {
        KIND_A => v4_rdata(alloc, word),
        KIND_AAAA => v6_rdata(alloc, word),
        KIND_TXT => string_rdata(alloc, word),
        _ => name_rdata(alloc, word),
    }
}

fn v4_rdata(alloc: Global, word: &[u8]) -> Result<Option<Bytes>, NoMemory>
    ensures { IfOk result (λ rdata. rdata ≡ meaning.rdata_of_word 1 word.now) }
{
    match net_addr::read(word) {
        Some(Addr::V4(address)) => Ok(Some(Bytes::of(alloc, &address.to_be_bytes())?)),
        Some(Addr::V6(_)) | None => Ok(None),
    }
}

fn v6_rdata(alloc: Global, word: &[u8]) -> Result<Option<Bytes>, NoMemory>
    ensures { IfOk result (λ rdata. rdata ≡ meaning.rdata_of_word 28 word.now) }
{
    match net_addr::read(word) {
        Some(Addr::V6(address)) => Ok(Some(Bytes::of(alloc, &address.to_be_bytes())?)),
        Some(Addr::V4(_)) | None => Ok(None),
    }
}

fn string_rdata(alloc: Global, word: &[u8]) -> Result<Option<Bytes>, NoMemory>
    ensures { IfOk result (λ rdata. rdata ≡ meaning.string_of word.now) }
{
    if word.len() > STRING_MOST {
        return Ok(None);
    }
    let mut rdata = Vec::with_capacity(alloc, word.len() + 1)?;
    rdata.push(word.len() as u8)?;
    rdata.extend_from_slice(word)?;
    Ok(Some(Bytes::from_vec(rdata)))
}

fn name_rdata(alloc: Global, word: &[u8]) -> Result<Option<Bytes>, NoMemory>
    ensures { IfOk result (λ rdata. rdata ≡ option_map name_bytes (name_of word.now)) }
{
    let Some(name) = read_name(alloc, word)? else {
        return Ok(None);
    };
    let mut rdata = Vec::with_capacity(alloc, name.wire_len())?;
    put_name(&mut rdata, &name)?;
    Ok(Some(Bytes::from_vec(rdata)))
}

fn mx_rdata(alloc: Global, preference: &[u8], exchange: &[u8]) -> Result<Option<Bytes>, NoMemory>
    ensures { IfOk result (λ rdata. rdata ≡ meaning.mx_rdata preference.now exchange.now) }
{
    let Some(number) = number_up_to(PREFERENCE_MOST, preference) else {
        return Ok(None);
    };
    let Some(name) = read_name(alloc, exchange)? else {
        return Ok(None);
    };
    let mut rdata = Vec::with_capacity(alloc, 2 + name.wire_len())?;
    rdata.extend_from_slice(&(number as u16).to_be_bytes())?;
    put_name(&mut rdata, &name)?;
    Ok(Some(Bytes::from_vec(rdata)))
}

/// Writes a name: its labels, and the root's byte (RFC 1035, section 3.1).
fn put_name(out: &mut Vec<u8>, name: &Name) -> Result<(), NoMemory>
    ensures { OnOk result (out.new.items ≡ out.old.items ++ name_bytes name.now) }
{
    out.extend_from_slice(name.as_wire())?;
    out.push(0)?;
    Ok(())
}
