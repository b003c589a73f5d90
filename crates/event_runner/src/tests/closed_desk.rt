//! The desk of the tests: that of a channel which was destroyed before anything was asked.

ghost use Rattle.channel_model.specs.Journal.{past_of};
ghost use Rattle.event_runner.specs.ClosedDesk.{IsClosed, known_of};

use chan_types::{Bytes, Entry, NoMemory, Quiet, Refusal, Spec, Ticket, What};
use channel_model::{Begun, Counts, Desk, Landed, Lapse, Refused, SetFault};
use net_addr::ServerAddr;
use std::alloc::Global;
use std::marker::Model;

/// The desk of a destroyed channel. Its journal gets messages that come and links that fail.
#[derive(Drop)]
pub struct ClosedDesk {
    journal: Vec<Entry>,
}

impl Model for ClosedDesk {
    ghost use Rattle.std.specs.Prelude.{List};
    ghost use Rattle.std.specs.Coded.{codes};
    ghost use Rattle.chan_types.specs.PlanCode.{moves_code};
    ghost use Rattle.chan_types.specs.declared.journal.Entry.{Entry};
    ghost use Rattle.channel_model.specs.Journal.{past_of};
    ghost use Rattle.event_runner.specs.ClosedDesk.{IsClosed};

    ghost Value = { List Entry };

    ghost coded = { Prim.hlevel (codes, moves_code) };

    ghost view = { λ d. d.journal.items };

    ghost invariant = { λ d. IsClosed (past_of d.journal.items) };
}

impl ClosedDesk {
    /// Destroys a channel at once.
    pub fn make(alloc: Global) -> Result<ClosedDesk, NoMemory> {
        let mut journal = Vec::new(alloc);
        journal.push(Entry {
            seat: 0,
            by: 0,
            what: What::Destroy,
        })?;
        Ok(ClosedDesk { journal })
    }

    /// How much happened behind that.
    pub fn count(&self) -> usize {
        self.journal.len().saturating_sub(1)
    }

    /// Whether this message came there, as the entry of this number.
    pub fn arrived(&self, number: usize, from: u32, over: u64, message: &[u8]) -> bool {
        match self.journal.get(number) {
            Some(entry) => match &entry.what {
                What::Arrive {
                    server,
                    link,
                    bytes,
                } => *server == from && *link == over && bytes.as_slice() == message,
                _ => false,
            },
            None => false,
        }
    }

    /// Whether this link failed there, as the entry of this number, at moment 0.
    pub fn failed(&self, number: usize, to: u32, over: u64) -> bool {
        match self.journal.get(number) {
            Some(entry) => match &entry.what {
                What::Fault {
                    server,
                    link,
                    moment,
                } => *server == to && *link == over && *moment == 0,
                _ => false,
            },
            None => false,
        }
    }

    /// Nothing is pending, waits or is in flight.
    fn is_closed(&self)
        ensures { IsClosed (past_of self.now) }
    {
        let _ = self.journal.len();
    }
}

impl Desk for ClosedDesk {
    type Token = Quiet;

    ghost known = { known_of };

    fn accept(&mut self, spec: Spec, token: Quiet) -> Result<u64, Refused<Quiet>> {
        self.is_closed();
        Err(Refused {
            why: Refusal::Closed,
            spec,
            token,
        })
    }

    fn cancel(&mut self) -> u64 {
        self.is_closed();
        0
    }

    fn destroy(&mut self) -> bool {
        self.is_closed();
        false
    }

    fn take(&mut self) -> Option<Ticket<Quiet>> {
        self.is_closed();
        None
    }

    fn start(&mut self, _: u16, _: u16, _: u64) -> Result<Begun, NoMemory> {
        self.is_closed();
        Ok(Begun::Idle)
    }

    fn arrive(&mut self, server: u32, link: u64, bytes: &[u8]) -> Result<Landed, NoMemory> {
        let bytes = Bytes::of(*self.journal.allocator(), bytes)?;
        self.journal.push(Entry {
            seat: 0,
            by: 0,
            what: What::Arrive {
                server,
                link,
                bytes,
            },
        })?;
        Ok(Landed::Stray)
    }

    fn expire(&mut self, _: u64) -> Result<Lapse, NoMemory> {
        self.is_closed();
        Ok(Lapse::NotDue)
    }

    fn fault(&mut self, server: u32, link: u64, moment: u64) -> Result<u64, NoMemory> {
        self.journal.push(Entry {
            seat: 0,
            by: 0,
            what: What::Fault {
                server,
                link,
                moment,
            },
        })?;
        Ok(0)
    }

    fn next_due(&mut self) -> Option<u64> {
        self.is_closed();
        None
    }

    fn counts(&mut self) -> Counts {
        self.is_closed();
        Counts {
            pending: 0,
            ready: 0,
            waiting: 0,
            flying: 0,
        }
    }

    fn link_busy(&mut self, _: u32, _: u64) -> bool {
        self.is_closed();
        false
    }

    fn set_servers(&mut self, _: &[ServerAddr]) -> Result<u64, SetFault> {
        self.is_closed();
        Err(SetFault::Closed)
    }
}
