//! The log of a World: its calls with their answers, the oldest first.

ghost use Rattle.std.specs.Prelude.{◌≡◌, [], ◌∷◌, ◌++◌, OnOk, OnErr};

use crate::answers::{Got, Sent, Waited, Wrote};
use dns_message::{Bytes, ItemList, NoMemory};
use net_addr::ServerAddr;
use std::alloc::Global;
use std::marker::Model;

/// One call of a World, with its answer.
#[derive(Debug, Drop, PartialEq)]
pub enum WorldCall {
    Serve {
        server: u32,
        address: ServerAddr,
    },
    Now {
        reading: u64,
    },
    Word {
        word: u16,
    },
    Send {
        server: u32,
        bytes: Bytes,
        sent: Sent,
    },
    Connect {
        server: u32,
        link: u64,
        sent: Sent,
    },
    Write {
        link: u64,
        bytes: Bytes,
        wrote: Wrote,
    },
    Receive {
        got: Got,
    },
    Close {
        link: u64,
    },
    Wait {
        until: u64,
        waited: Waited,
    },
}

/// A list of calls. Contracts see it as the list itself.
#[derive(Debug, Drop)]
pub struct WorldLog {
    calls: ItemList<WorldCall>,
}

impl Model for WorldLog {
    ghost use Rattle.std.specs.Prelude.{List};
    ghost use Rattle.net_world.specs.declared.log.WorldCall.{WorldCall};

    ghost Value = { List WorldCall };

    ghost view = { λ log. log.calls };
}

impl WorldLog {
    /// The empty log. It takes no memory.
    pub fn new(alloc: Global) -> WorldLog
        ensures { result ≡ [] }
    {
        WorldLog {
            calls: ItemList::new(alloc),
        }
    }

    /// The calls, in order.
    pub fn calls(&self) -> &[WorldCall]
        ensures { result.now ≡ self.now }
    {
        self.calls.as_slice()
    }

    /// Adds a call at the end. For want of memory the log stays as it was, and the call is dropped.
    pub fn push(&mut self, call: WorldCall) -> Result<(), NoMemory>
        ensures ok { OnOk result (self.new ≡ self.old ++ call ∷ []) }
        ensures err { OnErr result (self.new ≡ self.old) }
    {
        self.calls.push(call)
    }
}
