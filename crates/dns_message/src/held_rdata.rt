//! Testing rdata that is held, with its names expanded.

ghost use Rattle.std.specs.Prelude.{◌≡◌, ◌≤◌, length, drop, Some, None, MatchOption};
ghost use Rattle.dns_message.specs.Shapes.{shape_by};
ghost use Rattle.dns_message.specs.Validity.{behind_room, holds_names, holds_shape};

use crate::name::{LABEL_MOST, NAME_MOST};
use crate::shape::{NamesShape, Shape, shape_of, string_count};

/// Whether rdata that is held has the shape of its kind and class, without pointers.
pub(crate) fn is_shaped(kind: u16, class: u16, rdata: &[u8]) -> bool
    ensures { result ≡ holds_shape (shape_by kind class) rdata.now }
{
    match shape_of(kind, class) {
        Shape::Any => true,
        Shape::Bytes(count) => rdata.len() == count,
        Shape::TwoStrings => string_count(rdata) == Some(2),
        Shape::Strings => string_count(rdata).is_some(),
        Shape::Names(shape) => has_names(rdata, shape),
    }
}

/// Whether the bytes are so many bytes, so many plain names, and so many bytes.
fn has_names(rdata: &[u8], shape: NamesShape) -> bool
    ensures { result ≡ holds_names shape rdata.now }
{
    if rdata.len() < shape.front {
        return false;
    }
    let mut next = shape.front;
    for _ in 0..shape.names {
        match plain_name_end(rdata, next) {
            Some(end) => next = end,
            None => return false,
        }
    }
    rdata.len() - next == shape.back
}

/// The offset behind the plain name at an offset: labels and the root's byte, at most 255 bytes in all.
fn plain_name_end(bytes: &[u8], start: usize) -> Option<usize>
    requires { start ≤ length bytes.now }
    ensures { MatchOption result (behind_room 255 (drop start bytes.now) ≡ None)
        (λ end. (behind_room 255 (drop start bytes.now) ≡ Some (drop end bytes.now))
        × (end ≤ length bytes.now)) }
{
    let mut at = start;
    while at < bytes.len() && at - start < NAME_MOST {
        let len = bytes[at] as usize;
        if len == 0 {
            return Some(at + 1);
        }
        if len > LABEL_MOST {
            return None;
        }
        at += len + 1;
    }
    None
}
