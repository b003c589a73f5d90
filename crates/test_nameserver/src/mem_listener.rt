//! A server's side of the network in memory, and the exact meaning of its calls.

ghost use Rattle.std.specs.Prelude.{◌≡◌, [], drop, IfOk, OnErr, All};
ghost use Rattle.test_nameserver.specs.Listening.{is_not_heard};
ghost use Rattle.test_nameserver.specs.MemListener.{at_start, fails_now, sent_now, first_of, IsMessage, Listens, HearsNext, Replies};

use crate::listener::{Heard, Listener, ListenerCall};
use item_list::{Bytes, NoMemory};
use net_world::{Failing, Sent};
use std::alloc::Global;
use std::collections::VecDeque;
use std::marker::Model;

/// A server's side of the network in memory: it gives its messages in order, and fails behind the last one. The calls
/// that were named at its making fail too.
#[derive(Drop)]
pub struct MemListener {
    alloc: Global,
    messages: VecDeque<Heard>,
    failing: Failing,
    log: Vec<ListenerCall>,
}

impl Model for MemListener {
    ghost use Rattle.std.specs.Prelude.{All};
    ghost use Rattle.test_nameserver.specs.MemListener.{ListenerState, IsMessage};

    ghost Value = { ListenerState };

    ghost view = { λ l. record { messages = l.messages.items; fails = l.failing.numbers; faults = l.failing.faults; log = l.log.items } };

    ghost invariant = { λ l. All IsMessage l.messages.items };
}

impl MemListener {
    /// A listener that hears these messages, whose calls with these numbers, from 0, fail. It takes no memory.
    pub fn make(messages: Vec<Heard>, fails: Vec<u64>) -> MemListener
        requires { All IsMessage messages.items }
        ensures { result ≡ at_start messages.items fails.items }
    {
        let alloc = *fails.allocator();
        MemListener {
            alloc,
            messages: VecDeque::from_vec(messages),
            failing: Failing::new(fails),
            log: Vec::new(alloc),
        }
    }

    /// The calls so far, with their answers.
    pub fn log(&self) -> &[ListenerCall]
        ensures { result.now ≡ self.now.log }
    {
        self.log.as_slice()
    }

    /// Listens on this port, where nobody is.
    pub fn listen(&mut self, port: u16) -> Result<Sent, NoMemory>
        ensures ok { IfOk result (Listens port self.old self.new) }
        ensures err { OnErr result (self.new ≡ self.old) }
    {
        let sent = self.sends();
        self.log.push(ListenerCall::Listen { port, sent })?;
        self.failing.count(sent == Sent::Failed);
        Ok(sent)
    }

    /// Takes the first message. A call that fails takes none, and behind the last message all fail.
    pub fn next(&mut self) -> Result<Heard, NoMemory>
        ensures ok { IfOk result (HearsNext self.old self.new) }
        ensures err { OnErr result (self.new ≡ self.old) }
        ensures messages { All IsMessage self.old.messages }
    {
        let failed = self.fails();
        let heard = if failed {
            Heard::Failed
        } else {
            copy_first(self.alloc, &self.messages)?
        };
        let nothing = is_nothing(&heard);
        self.log.push(ListenerCall::Next { heard })?;
        self.failing.count(nothing);
        Ok(if failed {
            Heard::Failed
        } else {
            take_first(&mut self.messages)
        })
    }

    /// Notes the reply, which nobody gets.
    pub fn reply(&mut self, bytes: &[u8]) -> Result<Sent, NoMemory>
        ensures ok { IfOk result (Replies bytes.now self.old self.new) }
        ensures err { OnErr result (self.new ≡ self.old) }
    {
        let sent = self.sends();
        let bytes = Bytes::of(self.alloc, bytes)?;
        self.log.push(ListenerCall::Reply { bytes, sent })?;
        self.failing.count(sent == Sent::Failed);
        Ok(sent)
    }

    /// Whether the next call fails.
    fn fails(&self) -> bool
        ensures { result ≡ fails_now self.now }
    {
        self.failing.fails(self.log.len() as u64)
    }

    /// What the next call answers, where it sends.
    fn sends(&self) -> Sent
        ensures { result ≡ sent_now self.now }
    {
        if self.fails() {
            Sent::Failed
        } else {
            Sent::Sent
        }
    }
}

/// Whether nothing was heard.
fn is_nothing(heard: &Heard) -> bool
    ensures { result ≡ is_not_heard heard.now }
{
    match heard {
        Heard::Message { .. } => false,
        Heard::Failed => true,
    }
}

/// A copy of the first message, or that there is none.
fn copy_first(alloc: Global, messages: &VecDeque<Heard>) -> Result<Heard, NoMemory>
    ensures { IfOk result (λ heard. heard ≡ first_of messages.now.items) }
{
    Ok(match messages.front() {
        Some(Heard::Message { tcp, bytes }) => Heard::Message {
            tcp: *tcp,
            bytes: Bytes::of(alloc, bytes.as_slice())?,
        },
        Some(Heard::Failed) | None => Heard::Failed,
    })
}

/// Takes the first message, if there is one.
fn take_first(messages: &mut VecDeque<Heard>) -> Heard
    ensures heard { result ≡ first_of messages.old.items }
    ensures left { messages.new.items ≡ drop 1 messages.old.items }
{
    match messages.pop_front() {
        Some(heard) => heard,
        None => Heard::Failed,
    }
}

impl Listener for MemListener {
    ghost use Rattle.std.specs.Prelude.{Some};

    ghost log = { λ l. Some l.log };

    ghost faults = { λ l. l.faults };

    fn listen(&mut self, port: u16) -> Result<Sent, NoMemory> {
        MemListener::listen(self, port)
    }

    fn next(&mut self) -> Result<Heard, NoMemory> {
        MemListener::next(self)
    }

    fn reply(&mut self, bytes: &[u8]) -> Result<Sent, NoMemory> {
        MemListener::reply(self, bytes)
    }
}
