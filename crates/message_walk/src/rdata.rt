//! Whether rdata has its shape, without expanding its names (RFC 1035, sections 3.3 and 3.4).

ghost use Rattle.std.specs.Prelude.{◌+◌, ◌≤◌, ◌≢◌, length, IfErr, IfOk};
ghost use Rattle.dns_message.specs.Reading.{joined_of, expanded_name, names_rdata, or_else, rdata_of};
ghost use Rattle.message_walk.specs.Telling.{Ends, Reads};

use dns_message::{MessageFault, NamesShape, Shape, name_end, string_count};

/// Tells of the rdata of `len` bytes at an offset whether it has this shape.
pub fn check_rdata(bytes: &[u8], at: usize, len: usize, shape: Shape) -> Result<(), MessageFault>
    requires { at + len ≤ length bytes.now }
    ensures read { Reads result (rdata_of bytes.now at len shape) }
    ensures memory { IfErr result (λ fault. fault ≢ MessageFault.NoMemory) }
{
    let rdata = &bytes[at..at + len];
    let fits = match shape {
        Shape::Any => true,
        Shape::Bytes(count) => len == count,
        Shape::TwoStrings => string_count(rdata) == Some(2),
        Shape::Strings => string_count(rdata).is_some(),
        Shape::Names(names) => return check_names(bytes, at, len, names),
    };
    if fits {
        Ok(())
    } else {
        Err(MessageFault::BadRdata(at as u64))
    }
}

/// Tells whether the rdata is so many bytes, so many names and so many bytes.
fn check_names(bytes: &[u8], at: usize, len: usize, shape: NamesShape) -> Result<(), MessageFault>
    requires { at + len ≤ length bytes.now }
    ensures read { Reads result (names_rdata bytes.now at len shape) }
    ensures memory { IfErr result (λ fault. fault ≢ MessageFault.NoMemory) }
{
    let bad = MessageFault::BadRdata(at as u64);
    if len < shape.front {
        return Err(bad);
    }
    let next = names_end(bytes, at + shape.front, shape.names, bad)?;
    if next > at + len || at + len - next != shape.back {
        return Err(bad);
    }
    Ok(())
}

/// The offset behind so many names from an offset on. A name that can't be read is `bad`.
fn names_end(
    bytes: &[u8],
    at: usize,
    count: usize,
    bad: MessageFault,
) -> Result<usize, MessageFault>
    requires { at ≤ length bytes.now }
    ensures read { Ends result (joined_of (λ p. or_else bad (expanded_name bytes.now p)) count at) }
    ensures memory { bad ≢ MessageFault.NoMemory → IfErr result (λ fault. fault ≢ MessageFault.NoMemory) }
    ensures within { IfOk result (λ next. next ≤ length bytes.now) }
{
    let mut next = at;
    for _ in 0..count {
        match name_end(bytes, next) {
            Ok(end) => next = end,
            Err(_) => return Err(bad),
        }
    }
    Ok(next)
}
