//! A network in memory whose servers all answer from one zone, and the exact meaning of its calls.

ghost use Rattle.std.specs.Prelude.{◌≡◌, ◌≢◌, ◌≤◌, ◌++◌, ◌⊎◌, [], length, find, filter, drop, not, option_map, Some, IfOk, OnOk, OnErr};
ghost use Rattle.std.specs.List.{AllByRecursion};
ghost use Rattle.net_world.specs.World.{is_of_link};
ghost use Rattle.net_world.specs.Script.{MayCome};
ghost use Rattle.net_world.specs.declared.answers.Sent.TheVariants.{Sent as WasSent};
ghost use Rattle.net_world.specs.declared.answers.Wrote.TheVariants.{Count};
ghost use Rattle.net_world.specs.declared.log.WorldCall.TheVariants.{Serve, Send, Write};
ghost use Rattle.test_nameserver.specs.Peer.{at_start};
ghost use Rattle.test_nameserver.specs.PeerCalls as meaning;
ghost use Rattle.test_nameserver.specs.PeerCalls.{logged};
ghost use Rattle.test_nameserver.specs.PeerLog.{IsLogOf};
ghost use Rattle.test_nameserver.specs.Query.{asked_by};

use crate::hearing::{hear_all, note_all, note_datagram, question_key};
use crate::links::{OpenLink, drop_open, keep_unread, unread_with};
use crate::messages::messages_in;
use crate::query::{Query, query_in};
use crate::replying::reply_bytes;
use crate::zone::Zone;
use indexmap::IndexSet;
use item_list::{Bytes, NoMemory};
use net_addr::ServerAddr;
use net_world::{Got, Sent, Waited, WorldCall, Wrote};
use std::alloc::Global;
use std::collections::VecDeque;
use std::marker::Model;

/// A network in memory: each server answers from the zone, and of the first queries of the questions one in three is
/// lost, by a plan that goes by the seed.
#[derive(Drop)]
pub struct PeerWorld {
    alloc: Global,
    zone: Zone,
    seed: u16,
    asked: IndexSet<Vec<u8>>,
    items: VecDeque<Got>,
    links: Vec<OpenLink>,
    drawn: u64,
    clock: u64,
    reading: u64,
    log: Vec<WorldCall>,
}

impl Model for PeerWorld {
    ghost use Rattle.test_nameserver.specs.Peer.{PeerState};

    ghost Value = { PeerState };

    ghost use Rattle.test_nameserver.specs.PeerFields.{IsSound, state_of};

    ghost view = { state_of };

    ghost invariant = { IsSound };
}

impl PeerWorld {
    /// A network of this zone, which loses by this seed. Its clock begins at 0.
    pub fn make(alloc: Global, zone: Zone, seed: u16) -> Result<PeerWorld, NoMemory>
        ensures { IfOk result (λ world. world ≡ at_start zone seed) }
    {
        Ok(PeerWorld {
            alloc,
            zone,
            seed,
            asked: IndexSet::new(alloc),
            items: VecDeque::new(alloc),
            links: Vec::new(alloc),
            drawn: 0,
            clock: 0,
            reading: 0,
            log: Vec::new(alloc),
        })
    }

    /// The calls so far, with their answers: those of a network of its zone and its seed.
    pub fn log(&self) -> &[WorldCall]
        ensures told { result.now ≡ self.now.log }
        ensures made { IsLogOf self.now.zone self.now.seed result.now }
    {
        self.log.as_slice()
    }

    /// Tells the server's address, which nothing here asks for.
    pub fn serve(&mut self, server: u32, address: &ServerAddr) -> Result<(), NoMemory>
        ensures ok { OnOk result (self.new ≡ logged (Serve server address.now) self.old) }
        ensures err { OnErr result (self.new ≡ self.old) }
    {
        self.log.push(WorldCall::Serve {
            server,
            address: *address,
        })?;
        Ok(())
    }

    /// Reads the clock, which only a wait moves.
    pub fn now(&mut self) -> Result<u64, NoMemory>
        ensures ok { IfOk result (meaning.ReadsClock self.old self.new) }
        ensures err { OnErr result (self.new ≡ self.old) }
        ensures never_back { self.old.reading ≤ self.old.clock }
    {
        let reading = self.clock;
        self.log.push(WorldCall::Now { reading })?;
        self.reading = reading;
        Ok(reading)
    }

    /// The next random word, which goes by the seed.
    pub fn word(&mut self) -> Result<u16, NoMemory>
        ensures ok { IfOk result (meaning.DrawsNext self.old self.new) }
        ensures err { OnErr result (self.new ≡ self.old) }
    {
        let word = word_number(self.seed, self.drawn);
        self.log.push(WorldCall::Word { word })?;
        self.drawn = self.drawn.wrapping_add(1);
        Ok(word)
    }

    /// Sends a datagram to the server, which answers at once, unless the query is lost.
    pub fn send(&mut self, server: u32, bytes: &[u8]) -> Result<Sent, NoMemory>
        ensures ok { IfOk result (meaning.Sends server bytes.now self.old self.new) }
        ensures err { OnErr result (self.new ≡ self.old) }
    {
        match query_in(self.alloc, bytes)? {
            Some(query) => self.send_query(server, bytes, &query)?,
            None => self.log.push(sent_call(self.alloc, server, bytes)?)?,
        }
        Ok(Sent::Sent)
    }

    /// Hears the query that is sent.
    fn send_query(&mut self, server: u32, bytes: &[u8], query: &Query) -> Result<(), NoMemory>
        requires { asked_by bytes.now ≡ Some query.now }
        ensures ok { OnOk result (meaning.Sends server bytes.now self.old self.new WasSent) }
        ensures err { OnErr result (self.new ≡ self.old) }
    {
        let key = question_key(self.alloc, &query.question)?;
        let reply = reply_bytes(self.alloc, &self.zone, query, false)?;
        let got = Got::Datagram(server, reply);
        let call = sent_call(self.alloc, server, bytes)?;
        self.items.reserve(1)?;
        self.asked.reserve(1)?;
        self.log.push(call)?;
        note_datagram(&mut self.asked, &mut self.items, self.seed, key, got);
        Ok(())
    }

    /// Begins a link to the server.
    pub fn connect(&mut self, server: u32, link: u64) -> Result<Sent, NoMemory>
        ensures ok { IfOk result (meaning.Connects server link self.old self.new) }
        ensures err { OnErr result (self.new ≡ self.old) }
    {
        self.links.reserve(1)?;
        self.log.push(WorldCall::Connect {
            server,
            link,
            sent: Sent::Sent,
        })?;
        self.links.push_reserved(OpenLink {
            number: link,
            unread: Bytes::new(self.alloc),
        });
        Ok(Sent::Sent)
    }

    /// Writes to the link, which takes all bytes. What stands whole on an open link is answered at once.
    pub fn write(&mut self, link: u64, bytes: &[u8]) -> Result<Wrote, NoMemory>
        ensures ok { IfOk result (meaning.WritesAll link bytes.now self.old self.new) }
        ensures err { OnErr result (self.new ≡ self.old) }
    {
        match unread_with(self.alloc, &self.links, link, bytes)? {
            Some(unread) => self.carry(link, bytes, unread.as_slice())?,
            None => self.log.push(written_call(self.alloc, link, bytes)?)?,
        }
        Ok(Wrote::Count(bytes.len()))
    }

    /// Hears what an open link carries behind the bytes that are written to it.
    fn carry(&mut self, link: u64, bytes: &[u8], unread: &[u8]) -> Result<(), NoMemory>
        requires { option_map (λ found. found.unread ++ bytes.now) (find (meaning.has_number link) self.old.links)
            ≡ Some unread.now }
        ensures ok { OnOk result (meaning.WritesAll link bytes.now self.old self.new (Count (length bytes.now))) }
        ensures err { OnErr result (self.new ≡ self.old) }
    {
        let (messages, rest) = messages_in(self.alloc, unread)?;
        let heard = hear_all(self.alloc, &self.zone, link, messages.as_slice())?;
        let rest = Bytes::of(self.alloc, rest)?;
        let call = written_call(self.alloc, link, bytes)?;
        self.asked.reserve(heard.len())?;
        self.items.reserve(heard.len())?;
        self.log.push(call)?;
        note_all(&mut self.asked, &mut self.items, heard);
        keep_unread(&mut self.links, link, rest);
        Ok(())
    }

    /// Takes the first reply.
    pub fn receive(&mut self) -> Result<Got, NoMemory>
        ensures ok { IfOk result (meaning.ReceivesFirst self.old self.new) }
        ensures err { OnErr result (self.new ≡ self.old) }
        ensures replies { AllByRecursion MayCome self.old.items }
    {
        let got = copy_first(self.alloc, &self.items)?;
        self.log.push(WorldCall::Receive { got })?;
        Ok(take_first(&mut self.items))
    }

    /// Closes the link: its replies can be received no more.
    pub fn close(&mut self, link: u64) -> Result<(), NoMemory>
        ensures ok { OnOk result (meaning.ClosesLink link self.old self.new) }
        ensures err { OnErr result (self.new ≡ self.old) }
    {
        self.log.push(WorldCall::Close { link })?;
        drop_open(&mut self.links, link);
        drop_items(&mut self.items, link);
        Ok(())
    }

    /// Puts the clock to this moment, but never back, and not where something can be received.
    pub fn wait(&mut self, until: u64) -> Result<Waited, NoMemory>
        ensures ok { IfOk result (meaning.WaitsUntil until self.old self.new) }
        ensures err { OnErr result (self.new ≡ self.old) }
        ensures woken { OnOk result ((self.new.items ≢ []) ⊎ (until ≤ self.new.clock)) }
    {
        self.log.push(WorldCall::Wait {
            until,
            waited: Waited::Woken,
        })?;
        if self.items.is_empty() {
            self.clock = self.clock.max(until);
        }
        Ok(Waited::Woken)
    }
}

/// The call that sends a datagram.
fn sent_call(alloc: Global, server: u32, bytes: &[u8]) -> Result<WorldCall, NoMemory>
    ensures { IfOk result (λ call. call ≡ Send server bytes.now WasSent) }
{
    Ok(WorldCall::Send {
        server,
        bytes: Bytes::of(alloc, bytes)?,
        sent: Sent::Sent,
    })
}

/// The call that writes to a link, which takes all bytes.
fn written_call(alloc: Global, link: u64, bytes: &[u8]) -> Result<WorldCall, NoMemory>
    ensures { IfOk result (λ call. call ≡ Write link bytes.now (Count (length bytes.now))) }
{
    Ok(WorldCall::Write {
        link,
        bytes: Bytes::of(alloc, bytes)?,
        wrote: Wrote::Count(bytes.len()),
    })
}

/// The random word with this number.
fn word_number(seed: u16, number: u64) -> u16
    ensures { result ≡ meaning.word_number seed number }
{
    ((40_503 * number as u128 + seed as u128) % 65_536) as u16
}

/// A copy of the first of these, or that there is none.
fn copy_first(alloc: Global, items: &VecDeque<Got>) -> Result<Got, NoMemory>
    ensures { IfOk result (λ got. got ≡ meaning.first_item items.now.items) }
{
    match items.front() {
        Some(got) => got.copy(alloc),
        None => Ok(Got::Nothing),
    }
}

/// Takes the first of these.
fn take_first(items: &mut VecDeque<Got>) -> Got
    ensures got { result ≡ meaning.first_item items.old.items }
    ensures left { items.new.items ≡ drop 1 items.old.items }
{
    match items.pop_front() {
        Some(got) => got,
        None => Got::Nothing,
    }
}

/// Drops the replies over this link.
fn drop_items(items: &mut VecDeque<Got>, link: u64)
    ensures { items.new.items ≡ filter (λ got. not (is_of_link link got)) items.old.items }
{
    items.retain(|got| !got.is_of_link(link))
}
