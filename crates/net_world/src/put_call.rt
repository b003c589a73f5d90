//! One put of a text.

use crate::answers::PutEnd;
use dns_message::Bytes;

/// A put, with its end.
#[derive(Debug, Drop, PartialEq)]
pub struct PutCall {
    pub text: Bytes,
    pub end: PutEnd,
}
