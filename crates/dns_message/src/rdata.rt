//! Reading rdata by its shape, with its names expanded.

ghost use Rattle.std.specs.Prelude.{◌≡◌, ◌≢◌, ◌+◌, ◌<◌, ◌≤◌, ◌++◌, ℕ, List, Ok, Err, length, IfOk, MatchResult};
ghost use Rattle.dns_message.specs.Reading.{Gives, or_else, expanded_name, names_rdata, rdata_of};

use crate::fault::MessageFault;
use crate::name::NAME_ROOM;
use crate::name_reading::name_onto;
use crate::shape::{NamesShape, Shape, string_count};
use item_list::Bytes;
use std::alloc::Global;

/// The rdata of `len` bytes at an offset, with its names expanded.
pub(crate) fn rdata_at(
    alloc: Global,
    bytes: &[u8],
    at: usize,
    len: usize,
    shape: Shape,
) -> Result<Bytes, MessageFault>
    requires { at + len ≤ length bytes.now }
    ensures { Gives result (rdata_of bytes.now at len shape) }
{
    let rdata = &bytes[at..at + len];
    let fits = match shape {
        Shape::Any => true,
        Shape::Bytes(count) => len == count,
        Shape::TwoStrings => string_count(rdata) == Some(2),
        Shape::Strings => string_count(rdata).is_some(),
        Shape::Names(names) => return expanded(alloc, bytes, at, len, names),
    };
    if !fits {
        return Err(MessageFault::BadRdata(at as u64));
    }
    Ok(Bytes::of(alloc, rdata)?)
}

/// The rdata with the names in it expanded.
fn expanded(
    alloc: Global,
    bytes: &[u8],
    at: usize,
    len: usize,
    shape: NamesShape,
) -> Result<Bytes, MessageFault>
    requires { at + len ≤ length bytes.now }
    ensures { Gives result (names_rdata bytes.now at len shape) }
{
    let bad = MessageFault::BadRdata(at as u64);
    if len < shape.front {
        return Err(bad);
    }
    let mut next = at + shape.front;
    let mut rdata = Vec::with_capacity(alloc, len + NAME_ROOM)?;
    rdata.extend_from_slice(&bytes[at..next])?;
    for _ in 0..shape.names {
        next = expand(bytes, next, bad, &mut rdata)?;
    }
    if next > at + len || at + len - next != shape.back {
        return Err(bad);
    }
    rdata.extend_from_slice(&bytes[next..at + len])?;
    Ok(Bytes::from_vec(rdata))
}

/// Adds the name at an offset without pointers, and gives the offset behind it. A name that can't be read is `bad`.
fn expand(
    bytes: &[u8],
    at: usize,
    bad: MessageFault,
    rdata: &mut Vec<u8>,
) -> Result<usize, MessageFault>
    requires { at ≤ length bytes.now }
    ensures read { MatchResult result
        (λ next. (added : List ℕ) × (or_else bad (expanded_name bytes.now at) ≡ Ok (added, next))
        × (rdata.new.items ≡ rdata.old.items ++ added))
        (λ fault. fault ≢ MessageFault.NoMemory → or_else bad (expanded_name bytes.now at) ≡ Err fault) }
    ensures within { IfOk result (λ next. next ≤ length bytes.now) }
{
    match name_onto(bytes, at, rdata) {
        Ok(next) => Ok(next),
        Err(fault) => Err(bad_unless_memory(fault, bad)),
    }
}

/// A fault in place of any other than want of memory.
fn bad_unless_memory(fault: MessageFault, bad: MessageFault) -> MessageFault
    ensures memory { fault ≡ MessageFault.NoMemory → result ≡ MessageFault.NoMemory }
    ensures other { fault ≢ MessageFault.NoMemory → result ≡ bad }
{
    match fault {
        MessageFault::NoMemory => MessageFault::NoMemory,
        _ => bad,
    }
}
