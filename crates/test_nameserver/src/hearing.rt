//! What the other end of a network hears: questions that were asked, and replies to be received.

ghost use Rattle.std.specs.Prelude.{◌≡◌, ◌+◌, ◌<◌, ◌≤◌, [], ◌∷◌, ◌++◌, length, map, filter_map, fold, option_to_list, if◌then◌else◌, IfOk, OnOk, OnErr};
ghost use Rattle.std.specs.VecDeque.{deque_len, deque_capacity};
ghost use Rattle.indexmap.specs.IndexSet.{spare};
ghost use Rattle.test_nameserver.specs.Query.{asked_by};
ghost use Rattle.test_nameserver.specs.Peer as meaning;
ghost use Rattle.test_nameserver.specs.Heard.{keys_of, key_heard, got_heard};

use crate::query::{Query, query_in};
use crate::replying::reply_bytes;
use crate::zone::{Zone, key_of};
use dns_message::Question;
use indexmap::IndexSet;
use item_list::{Bytes, NoMemory};
use net_world::Got;
use std::alloc::Global;
use std::collections::VecDeque;

/// A query that was heard: what tells its question from others, and its reply.
#[derive(Debug, Drop)]
pub struct Heard {
    pub key: Vec<u8>,
    pub got: Got,
}

/// What tells a question from others: its name in lower case, its type and its class.
pub(crate) fn question_key(alloc: Global, question: &Question) -> Result<Vec<u8>, NoMemory>
    ensures { IfOk result (λ key. key.items ≡ meaning.question_key question.now) }
{
    let mut key = key_of(alloc, &question.name)?;
    key.extend_from_slice(&question.kind.to_be_bytes())?;
    key.extend_from_slice(&question.class.to_be_bytes())?;
    Ok(key)
}

/// Whether the query of this question is lost by the plan.
fn is_lost(seed: u16, asked: &IndexSet<Vec<u8>>, key: &[u8]) -> bool
    ensures { result ≡ meaning.is_lost seed (keys_of asked.now) key.now }
{
    !asked.contains(key) && (asked.len() as u64 + seed as u64) % 3 == 0
}

/// Notes a question. There has to be room.
fn note_one(asked: &mut IndexSet<Vec<u8>>, key: Vec<u8>)
    requires { 0 < spare asked.old }
    ensures noted { keys_of asked.new ≡ meaning.noted (keys_of asked.old) key.items }
    ensures spare { spare asked.old ≤ spare asked.new + 1 }
{
    match asked.insert(key) {
        Ok(_) => {}
        Err(_) => unreachable!(),
    }
}

/// Adds a reply, unless it is to a query that is lost. There has to be room.
fn add_unless(items: &mut VecDeque<Got>, lost: bool, got: Got)
    requires { deque_len items.old < deque_capacity items.old }
    ensures { items.new.items ≡ (if lost then items.old.items else items.old.items ++ got ∷ []) }
{
    if !lost {
        items.push_back_reserved(got);
    }
}

/// Notes the question of a datagram, and adds its reply, unless the query is lost by the plan. There has to be room.
pub(crate) fn note_datagram(
    asked: &mut IndexSet<Vec<u8>>,
    items: &mut VecDeque<Got>,
    seed: u16,
    key: Vec<u8>,
    got: Got,
)
    requires room { 0 < spare asked.old }
    requires item_room { deque_len items.old < deque_capacity items.old }
    ensures asked { keys_of asked.new ≡ meaning.noted (keys_of asked.old) key.items }
    ensures items { items.new.items
        ≡ (if meaning.is_lost seed (keys_of asked.old) key.items then items.old.items
        else items.old.items ++ got ∷ []) }
{
    let lost = is_lost(seed, asked, key.as_slice());
    note_one(asked, key);
    add_unless(items, lost, got);
}

/// A message over TCP: its length, and its bytes (RFC 1035, section 4.2.2).
fn framed(alloc: Global, bytes: &[u8]) -> Result<Bytes, NoMemory>
    requires { length bytes.now < 65536 }
    ensures { IfOk result (λ frame. frame ≡ meaning.framed bytes.now) }
{
    let mut frame = Vec::with_capacity(alloc, bytes.len() + 2)?;
    frame.extend_from_slice(&(bytes.len() as u16).to_be_bytes())?;
    frame.extend_from_slice(bytes)?;
    Ok(Bytes::from_vec(frame))
}

/// What is heard of a query over a link.
fn heard_of(alloc: Global, zone: &Zone, link: u64, query: &Query) -> Result<Heard, NoMemory>
    ensures key { IfOk result (λ heard. key_heard heard ≡ meaning.key_asked query.now) }
    ensures got { IfOk result (λ heard. got_heard heard ≡ meaning.link_reply zone.now link query.now) }
{
    let key = question_key(alloc, &query.question)?;
    let reply = reply_bytes(alloc, zone, query, true)?;
    let got = Got::Piece(link, framed(alloc, reply.as_slice())?);
    Ok(Heard { key, got })
}

/// Adds what is heard of a message over a link, if it is a query.
fn hear_one(
    alloc: Global,
    heard: &mut VecDeque<Heard>,
    zone: &Zone,
    link: u64,
    message: &[u8],
) -> Result<(), NoMemory>
    ensures keys { OnOk result (map key_heard heard.new.items ≡ map key_heard heard.old.items
        ++ map meaning.key_asked (option_to_list (asked_by message.now))) }
    ensures gots { OnOk result (map got_heard heard.new.items ≡ map got_heard heard.old.items
        ++ map (meaning.link_reply zone.now link) (option_to_list (asked_by message.now))) }
{
    if let Some(query) = query_in(alloc, message)? {
        heard.push_back(heard_of(alloc, zone, link, &query)?)?;
    }
    Ok(())
}

/// What is heard of the queries among messages over a link.
pub(crate) fn hear_all(
    alloc: Global,
    zone: &Zone,
    link: u64,
    messages: &[&[u8]],
) -> Result<VecDeque<Heard>, NoMemory>
    ensures keys { IfOk result (λ heard. map key_heard heard.items
        ≡ map meaning.key_asked (filter_map asked_by (map (λ message. message.now) messages.now))) }
    ensures gots { IfOk result (λ heard. map got_heard heard.items
        ≡ map (meaning.link_reply zone.now link)
        (filter_map asked_by (map (λ message. message.now) messages.now))) }
{
    let mut heard = VecDeque::new(alloc);
    for message in messages {
        hear_one(alloc, &mut heard, zone, link, message)?;
    }
    Ok(heard)
}

/// Notes the questions of what was heard, and adds the replies to it. There has to be room.
pub(crate) fn note_all(
    asked: &mut IndexSet<Vec<u8>>,
    items: &mut VecDeque<Got>,
    heard: VecDeque<Heard>,
)
    requires room { deque_len heard ≤ spare asked.old }
    requires item_room { deque_len items.old + deque_len heard ≤ deque_capacity items.old }
    ensures asked { keys_of asked.new ≡ fold meaning.noted (keys_of asked.old) (map key_heard heard.items) }
    ensures items { items.new.items ≡ items.old.items ++ map got_heard heard.items }
{
    let mut left = heard;
    while let Some(one) = left.pop_front() {
        note_one(asked, one.key);
        items.push_back_reserved(one.got);
    }
}
