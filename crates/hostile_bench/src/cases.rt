//! Cases: bytes, and which reader they are for.

use std::alloc::{AllocError, Global};

/// What bytes are read as.
#[derive(Clone, Copy)]
pub enum Kind {
    Message,
    /// A type and a class of two bytes each, and rdata behind them.
    Rdata,
    Name,
    Address,
    Resolv,
    Hosts,
    Zone,
    Run,
}

/// Bytes, and what they are read as.
#[derive(Drop)]
pub struct Case {
    pub kind: Kind,
    pub bytes: Vec<u8>,
}

/// The kind that a word names.
pub fn kind_in(word: &str) -> Option<Kind> {
    match word {
        "message" => Some(Kind::Message),
        "rdata" => Some(Kind::Rdata),
        "name" => Some(Kind::Name),
        "address" => Some(Kind::Address),
        "resolv" => Some(Kind::Resolv),
        "hosts" => Some(Kind::Hosts),
        "zone" => Some(Kind::Zone),
        "run" => Some(Kind::Run),
        _ => None,
    }
}

/// The case of a line: a kind's word, and behind a blank the bytes in hexadecimal. Any other line is none.
pub fn case_in(alloc: Global, line: &str) -> Result<Option<Case>, AllocError> {
    let Some((word, digits)) = line.split_once(' ') else {
        return Ok(None);
    };
    let Some(kind) = kind_in(word) else {
        return Ok(None);
    };
    match hex::decode(alloc, digits) {
        Ok(bytes) => Ok(Some(Case { kind, bytes })),
        Err(hex::FromHexError::OutOfMemory) => Err(AllocError),
        Err(_) => Ok(None),
    }
}
