//! The server's side of the real network.

ghost use Rattle.std.specs.Prelude.{◌≡◌, false, IsNone, IfOk, OnErr};
ghost use Rattle.net_world.specs.Cause.{is_not_sent, raised};
ghost use Rattle.test_nameserver.specs.Listening.{is_not_heard};
ghost use Rattle.sock_listener.specs.Listens.{silent_state, ListensOr, CountsFailure};

use crate::sockets::Sockets;
use item_list::NoMemory;
use net_world::{Sent, raise};
use std::marker::Model;
use std::net::Net;
use std::time::Clock;
use test_nameserver::{Heard, Listener};

/// A server on 127.0.0.1, over UDP and TCP. Contracts see whether it has its sockets and how often it failed, and nothing of
/// what it heard.
#[derive(Drop)]
pub struct RealListener<R> {
    rt: R,
    sockets: Option<Sockets>,
    faults: u64,
}

impl<R> Model for RealListener<R> {
    ghost use Rattle.std.specs.Option.{is_some};
    ghost use Rattle.sock_listener.specs.Listens.{ListenerState};

    ghost Value = { ListenerState };

    ghost view = { λ l. record { listens = is_some l.sockets; faults = l.faults } };
}

impl<R: Net + Clock + AllocGlobal> RealListener<R> {
    /// A listener that doesn't listen yet.
    pub fn make(rt: R) -> RealListener<R>
        ensures { result ≡ silent_state }
    {
        RealListener {
            rt,
            sockets: None,
            faults: 0,
        }
    }

    /// Listens on this port. Sockets of an earlier call are closed.
    pub fn listen(&mut self, port: u16) -> Result<Sent, NoMemory>
        ensures ok { IfOk result (ListensOr self.old self.new) }
        ensures err { OnErr result (self.new ≡ self.old) }
    {
        self.sockets = Sockets::open(&self.rt, self.rt.alloc(), port)?;
        let sent = if self.sockets.is_some() {
            Sent::Sent
        } else {
            Sent::Failed
        };
        Ok(self.counted(sent))
    }

    /// The bytes of the receive buffer that the system gave for datagrams, if it listens and the system tells them.
    pub fn receive_buffer(&self) -> Option<u32>
        ensures { self.now.listens ≡ false → IsNone result }
    {
        match &self.sockets {
            Some(sockets) => sockets.receive_buffer(),
            None => None,
        }
    }

    /// Waits for the next message. It fails before the first `listen`.
    pub fn next(&mut self) -> Result<Heard, NoMemory>
        ensures ok { IfOk result (CountsFailure is_not_heard self.old self.new) }
        ensures err { OnErr result (self.new ≡ self.old) }
    {
        let heard = match &mut self.sockets {
            Some(sockets) => sockets.next(&self.rt)?,
            None => Heard::Failed,
        };
        self.faults = raise(is_nothing(&heard), self.faults);
        Ok(heard)
    }

    /// Answers the sender of the last message.
    pub fn reply(&mut self, bytes: &[u8]) -> Result<Sent, NoMemory>
        ensures ok { IfOk result (CountsFailure is_not_sent self.old self.new) }
        ensures err { OnErr result (self.new ≡ self.old) }
    {
        let sent = match &mut self.sockets {
            Some(sockets) => sockets.reply(bytes)?,
            None => Sent::Failed,
        };
        Ok(self.counted(sent))
    }

    /// The answer, which is counted where it tells a failure.
    fn counted(&mut self, sent: Sent) -> Sent
        ensures same { result ≡ sent }
        ensures count { self.new ≡ record self.old { faults = raised (is_not_sent sent) self.old.faults } }
    {
        let failed = match sent {
            Sent::Sent => false,
            Sent::Failed => true,
        };
        self.faults = raise(failed, self.faults);
        sent
    }
}

/// Whether nothing was heard.
fn is_nothing(heard: &Heard) -> bool
    ensures { result ≡ is_not_heard heard.now }
{
    match heard {
        Heard::Message { .. } => false,
        Heard::Failed => true,
    }
}

impl<R: Net + Clock + AllocGlobal> Listener for RealListener<R> {
    ghost use Rattle.std.specs.Prelude.{None};

    ghost log = { λ _. None };

    ghost faults = { λ l. l.faults };

    fn listen(&mut self, port: u16) -> Result<Sent, NoMemory> {
        RealListener::listen(self, port)
    }

    fn next(&mut self) -> Result<Heard, NoMemory> {
        RealListener::next(self)
    }

    fn reply(&mut self, bytes: &[u8]) -> Result<Sent, NoMemory> {
        RealListener::reply(self, bytes)
    }
}
