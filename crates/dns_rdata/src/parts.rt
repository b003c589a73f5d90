//! What rdata is made of: strings, and names without pointers (RFC 1035, section 3.3).

ghost use Rattle.std.specs.Prelude.{◌≡◌, ◌≢◌, Some, None, map, MatchResult, option_map};
ghost use Rattle.dns_rdata.specs.Parts.{first_string, labels_in, name_in, strings_in, whole_name, Gives, seen};
ghost use Rattle.dns_rdata.specs.declared.fault.RdataFault.TheVariants as rdata_fault;
ghost use Rattle.dns_message.specs.declared.fault.NameFault.TheVariants as name_fault;

use crate::fault::RdataFault;
use dns_message::{Bytes, BytesList, Name, NameFault};
use std::alloc::Global;

/// The string at the front of the bytes, and the bytes behind it.
fn first_string(bytes: &[u8]) -> Option<(&[u8], &[u8])>
    ensures { first_string bytes.now ≡ option_map seen result }
{
    let [len, rest @ ..] = bytes else {
        return None;
    };
    let len = *len as usize;
    if rest.len() < len {
        return None;
    }
    let (string, behind) = rest.split_at(len);
    Some((string, behind))
}

/// The strings that the bytes are.
pub(crate) fn strings_in(alloc: Global, bytes: &[u8]) -> Result<BytesList, RdataFault>
    ensures { Gives result (strings_in bytes.now) }
{
    let mut strings = BytesList::new(alloc);
    let mut rest = bytes;
    while !rest.is_empty() {
        let Some((string, behind)) = first_string(rest) else {
            return Err(RdataFault::BadRdata);
        };
        strings.push(Bytes::of(alloc, string)?)?;
        rest = behind;
    }
    Ok(strings)
}

/// The labels at the front of the bytes, up to the root's zero byte, and the bytes behind it.
fn labels_in<'a>(alloc: Global, bytes: &'a [u8]) -> Result<(Vec<&'a [u8]>, &'a [u8]), RdataFault>
    ensures { MatchResult result
        (λ found. labels_in bytes.now ≡ Some (map (λ label. label.now) found.0.items, found.1.now))
        (λ fault. fault ≢ rdata_fault.NoMemory → labels_in bytes.now ≡ None) }
{
    let mut labels = Vec::new(alloc);
    let mut rest = bytes;
    while let Some((label, behind)) = first_string(rest) {
        if label.is_empty() {
            return Ok((labels, behind));
        }
        labels.push(label)?;
        rest = behind;
    }
    Err(RdataFault::BadRdata)
}

/// The name at the front of the bytes, and the bytes behind it.
pub(crate) fn name_in<'a>(alloc: Global, bytes: &'a [u8]) -> Result<(Name, &'a [u8]), RdataFault>
    ensures { MatchResult result
        (λ found. name_in bytes.now ≡ Some (found.0, found.1.now))
        (λ fault. fault ≢ rdata_fault.NoMemory → name_in bytes.now ≡ None) }
{
    let (labels, rest) = labels_in(alloc, bytes)?;
    match Name::from_labels(alloc, &labels) {
        Ok(name) => {
            // What a name promises of its labels.
            let _ = name.wire_len();
            Ok((name, rest))
        }
        Err(fault) => Err(bad_unless_memory(fault)),
    }
}

/// Bad rdata, in place of any fault but want of memory.
fn bad_unless_memory(fault: NameFault) -> RdataFault
    ensures { result ≢ rdata_fault.NoMemory → fault ≢ name_fault.NoMemory }
{
    match fault {
        NameFault::NoMemory => RdataFault::NoMemory,
        _ => RdataFault::BadRdata,
    }
}

/// The name that the bytes are.
pub(crate) fn whole_name(alloc: Global, bytes: &[u8]) -> Result<Name, RdataFault>
    ensures { Gives result (whole_name bytes.now) }
{
    let (name, rest) = name_in(alloc, bytes)?;
    if !rest.is_empty() {
        return Err(RdataFault::BadRdata);
    }
    Ok(name)
}
