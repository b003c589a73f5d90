//! What the calls of a channel answer.

ghost use Rattle.std.specs.Prelude.{◌≡◌};
ghost use Rattle.channel_model.specs.declared.answers.SetFault.TheVariants as set_fault;

use chan_types::{Bytes, NoMemory, Refusal, Spec, Token};
use net_addr::ServerAddr;

/// A request that was refused: why, and what was handed in.
#[derive(Drop)]
pub struct Refused<T: Token> {
    pub why: Refusal,
    pub spec: Spec,
    pub token: T,
}

/// How a start ended.
#[derive(Debug, Drop)]
pub enum Begun {
    /// An attempt of this leg was begun. The query's bytes go to this server over this link.
    Started {
        number: u64,
        leg: u8,
        server: u32,
        /// Where that server listens.
        address: ServerAddr,
        link: u64,
        id: u16,
        message: Bytes,
    },
    /// No leg waits.
    Idle,
    /// All identifiers are in flight.
    NoId,
}

/// Where a message landed.
#[derive(Clone, Copy, Debug, PartialEq, Eq)]
pub enum Landed {
    /// It answers the attempt of this leg.
    Matched { number: u64, leg: u8 },
    /// It answers no attempt that is in flight.
    Stray,
}

/// How a look at the deadlines ended.
#[derive(Clone, Copy, Debug, PartialEq, Eq)]
pub enum Lapse {
    /// The attempt of this leg has expired.
    Expired { number: u64, leg: u8 },
    /// No attempt in flight is due.
    NotDue,
}

/// How many requests are pending and ready, and how many legs wait and are in flight.
#[derive(Clone, Copy, Debug, PartialEq, Eq)]
pub struct Counts {
    pub pending: u64,
    pub ready: u64,
    pub waiting: u64,
    pub flying: u64,
}

/// Why servers can't become the channel's list.
#[derive(Clone, Copy, Debug, PartialEq, Eq)]
pub enum SetFault {
    /// The channel was destroyed. Its number is 21.
    Closed,
    /// Not enough keys are left: a key is never given twice, and has 32 bits. Its number is 22.
    Full,
    NoMemory,
}

impl From<NoMemory> for SetFault {
    ghost from_gives = { λ _ fault. fault ≡ set_fault.NoMemory };

    fn from(_: NoMemory) -> SetFault {
        SetFault::NoMemory
    }
}
