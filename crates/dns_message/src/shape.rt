//! The shapes that rdata has, by kind and class (RFC 1035, sections 3.3 and 3.4; RFC 2782; RFC 3596).

ghost use Rattle.std.specs.Prelude.{◌≡◌};
ghost use Rattle.dns_message.specs.Shapes.{names_shape, shape_by, strings_of};

use crate::numbers::{
    CLASS_IN, KIND_A, KIND_AAAA, KIND_CNAME, KIND_HINFO, KIND_MX, KIND_NS, KIND_PTR, KIND_SOA,
    KIND_SRV, KIND_TXT,
};

/// What rdata is made of.
#[derive(Clone, Copy)]
pub enum Shape {
    Any,
    /// So many bytes.
    Bytes(usize),
    /// Two strings, each a length byte and so many bytes.
    TwoStrings,
    /// Any number of strings.
    Strings,
    /// Bytes, then names, then bytes.
    Names(NamesShape),
}

/// How many bytes stand before the names, how many names there are, and how many bytes stand behind them.
#[derive(Clone, Copy)]
pub struct NamesShape {
    pub front: usize,
    pub names: usize,
    pub back: usize,
}

fn names(front: usize, names: usize, back: usize) -> Shape
    ensures { result ≡ names_shape front names back }
{
    Shape::Names(NamesShape { front, names, back })
}

/// The shape of a kind in a class. Kinds whose shape is one class's own have none in other classes.
pub fn shape_of(kind: u16, class: u16) -> Shape
    ensures { result ≡ shape_by kind class }
{
    match kind {
        KIND_A if class == CLASS_IN => Shape::Bytes(4),
        KIND_NS | KIND_CNAME | KIND_PTR => names(0, 1, 0),
        KIND_SOA => names(0, 2, 20),
        KIND_HINFO => Shape::TwoStrings,
        KIND_MX => names(2, 1, 0),
        KIND_TXT => Shape::Strings,
        KIND_AAAA if class == CLASS_IN => Shape::Bytes(16),
        KIND_SRV if class == CLASS_IN => names(6, 1, 0),
        _ => Shape::Any,
    }
}

/// How many strings the bytes are, or none where the last has too few bytes.
pub fn string_count(bytes: &[u8]) -> Option<usize>
    ensures { result ≡ strings_of bytes.now }
{
    let mut count = 0;
    let mut at = 0;
    while at < bytes.len() {
        let len = bytes[at] as usize;
        if bytes.len() - at - 1 < len {
            return None;
        }
        at += len + 1;
        count += 1;
    }
    Some(count)
}
