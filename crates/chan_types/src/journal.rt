//! The journal of a channel: what happened, in order. It is all that is promised about a channel.

ghost use Rattle.std.specs.Prelude.{◌≡◌};

use crate::script::Script;
use crate::server_key::KeyList;
use crate::spec::Spec;
use dns_message::Bytes;
use std::marker::Model;

/// One event of a channel.
#[derive(Drop)]
pub struct Entry {
    /// The seat that made the entry.
    pub seat: u64,
    /// The number of the request whose callback gave the command, or 0.
    pub by: u64,
    pub what: What,
}

/// What happened. A request's number counts the accepted ones from 1; a leg is one question of a request; a server is
/// named by its key; link 0 is UDP, any other a TCP link of that number; a moment is in milliseconds, on the clock of
/// the World.
#[derive(Drop)]
pub enum What {
    /// A request was accepted, with a callback of this script.
    Accept {
        number: u64,
        spec: Spec,
        script: Script,
    },
    /// Every pending request was cancelled.
    Cancel,
    /// The channel was destroyed.
    Destroy,
    /// A completed request's ticket was moved out.
    Take {
        number: u64,
    },
    /// A query with this identifier was begun, for a request's leg.
    Start {
        number: u64,
        leg: u8,
        server: u32,
        link: u64,
        id: u16,
        /// The bits that its letters' case was drawn with, where it was.
        mix: Option<u16>,
        moment: u64,
    },
    /// A message came.
    Arrive {
        server: u32,
        link: u64,
        bytes: Bytes,
    },
    /// The deadline of a leg passed.
    Expire {
        number: u64,
        leg: u8,
        moment: u64,
    },
    /// A link failed or ended.
    Fault {
        server: u32,
        link: u64,
        moment: u64,
    },
    /// The channel's servers are these from now on.
    Servers {
        list: KeyList,
    },
}

/// A list of entries, oldest first. Contracts see it as the list itself.
#[derive(Drop)]
pub struct Journal {
    entries: Vec<Entry>,
}

impl Model for Journal {
    ghost use Rattle.std.specs.Prelude.{List};
    ghost use Rattle.std.specs.Coded.{codes};
    ghost use Rattle.chan_types.specs.PlanCode.{moves_code};
    ghost use Rattle.chan_types.specs.declared.journal.Entry.{Entry};

    ghost Value = { List Entry };

    ghost coded = { Prim.hlevel (codes, moves_code) };

    ghost view = { λ journal. journal.entries.items };
}

impl Journal {
    /// The journal of these entries. It takes no memory.
    pub fn from_vec(entries: Vec<Entry>) -> Journal
        ensures { result ≡ entries.items }
    {
        Journal { entries }
    }

    /// The entries as a vector. It takes no memory.
    pub fn into_vec(self) -> Vec<Entry>
        ensures { result.items ≡ self }
    {
        self.entries
    }

    /// The entries, oldest first.
    pub fn entries(&self) -> &[Entry]
        ensures { result.now ≡ self.now }
    {
        self.entries.as_slice()
    }
}
