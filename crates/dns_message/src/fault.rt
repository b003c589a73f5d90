//! Why a text is no name, bytes are no message, and a message can't be written. Offsets count bytes from 0.

ghost use Rattle.std.specs.Prelude.{◌≡◌};
ghost use Rattle.dns_message.specs.declared.fault.NameFault.TheVariants as name_fault;
ghost use Rattle.dns_message.specs.declared.fault.MessageFault.TheVariants as message_fault;
ghost use Rattle.dns_message.specs.declared.fault.EncodeFault.TheVariants as encode_fault;

use item_list::NoMemory;
use std::alloc::{AllocError, AllocFailed};
use thiserror::Error;

/// Why a text or a list of labels is no name (RFC 1035, sections 2.3.4 and 5.1): the first fault from the left.
#[derive(Clone, Copy, Debug, PartialEq, Eq, Error)]
pub enum NameFault {
    /// A label without bytes ends at this offset. The empty text has this fault too.
    #[error("an empty label at {0}")]
    EmptyLabel(u64),
    /// The label's 64th byte is at this offset; at an escape it is the offset of its backslash.
    #[error("a label of more than 63 bytes at {0}")]
    LongLabel(u64),
    /// The label that begins at this offset makes the name longer than 255 bytes.
    #[error("a name of more than 255 bytes at {0}")]
    LongName(u64),
    /// The backslash at this offset ends the text, or stands before a digit that begins no three digits up to 255.
    #[error("a bad escape at {0}")]
    BadEscape(u64),
    /// Want of memory.
    #[error("out of memory")]
    NoMemory,
}

/// Why bytes are no message (RFC 1035, section 4.1): the first fault in reading order.
#[derive(Clone, Copy, Debug, PartialEq, Eq, Error)]
pub enum MessageFault {
    /// There are fewer than the header's 12 bytes.
    #[error("a header of fewer than 12 bytes")]
    ShortHeader,
    /// The message ends inside the part that begins at this offset.
    #[error("the message ends inside the part at {0}")]
    ShortPart(u64),
    /// The length byte at this offset has the top bits 01 or 10.
    #[error("a bad label length at {0}")]
    BadLabel(u64),
    /// The pointer at this offset has a target that isn't before its run of labels.
    #[error("a bad pointer at {0}")]
    BadPointer(u64),
    /// The name at this offset expands to more than 255 bytes.
    #[error("a name of more than 255 bytes at {0}")]
    LongName(u64),
    /// The rdata at this offset doesn't have its type's shape.
    #[error("bad rdata at {0}")]
    BadRdata(u64),
    /// Bytes follow the last record; the first of them is at this offset.
    #[error("bytes behind the message at {0}")]
    TrailingBytes(u64),
    /// Want of memory.
    #[error("out of memory")]
    NoMemory,
}

/// Why a message can't be written.
#[derive(Clone, Copy, Debug, PartialEq, Eq, Error)]
pub enum EncodeFault {
    /// It has more than 65,535 bytes (RFC 1035, section 4.2.2).
    #[error("a message of more than 65,535 bytes")]
    TooLong,
    /// Want of memory.
    #[error("out of memory")]
    NoMemory,
}

impl From<NoMemory> for NameFault {
    ghost from_gives = { λ _ fault. fault ≡ name_fault.NoMemory };

    fn from(_: NoMemory) -> NameFault {
        NameFault::NoMemory
    }
}

impl From<AllocError> for NameFault {
    ghost from_gives = { λ _ fault. fault ≡ name_fault.NoMemory };

    fn from(_: AllocError) -> NameFault {
        NameFault::NoMemory
    }
}

impl<T: Drop> From<AllocFailed<T>> for NameFault {
    ghost from_gives = { λ _ fault. fault ≡ name_fault.NoMemory };

    fn from(_: AllocFailed<T>) -> NameFault {
        NameFault::NoMemory
    }
}

impl From<NoMemory> for MessageFault {
    ghost from_gives = { λ _ fault. fault ≡ message_fault.NoMemory };

    fn from(_: NoMemory) -> MessageFault {
        MessageFault::NoMemory
    }
}

impl From<AllocError> for MessageFault {
    ghost from_gives = { λ _ fault. fault ≡ message_fault.NoMemory };

    fn from(_: AllocError) -> MessageFault {
        MessageFault::NoMemory
    }
}

impl<T: Drop> From<AllocFailed<T>> for MessageFault {
    ghost from_gives = { λ _ fault. fault ≡ message_fault.NoMemory };

    fn from(_: AllocFailed<T>) -> MessageFault {
        MessageFault::NoMemory
    }
}

impl From<NoMemory> for EncodeFault {
    ghost from_gives = { λ _ fault. fault ≡ encode_fault.NoMemory };

    fn from(_: NoMemory) -> EncodeFault {
        EncodeFault::NoMemory
    }
}

impl From<AllocError> for EncodeFault {
    ghost from_gives = { λ _ fault. fault ≡ encode_fault.NoMemory };

    fn from(_: AllocError) -> EncodeFault {
        EncodeFault::NoMemory
    }
}
