//! Calls of a channel with one owner, in order, and what each of them answers, as a line of text.

use super::making::{Move, Moved, accepted, listed, make_move};
use chan_types::{Answer, Bytes, Quiet, Refusal, Spec};
use channel_model::{Begun, Counts, Desk, Landed, Lapse, SetFault};
use channel_table::Alone;
use dns_message::numbers::{CLASS_IN, KIND_A};
use hosts_file::Hosts;
use net_addr::{Addr, Family, ServerAddr, print};
use resolv_options::{Options, read_resolv};
use std::alloc::Global;
use std::test::Fail;

/// What is asked for; names are texts.
#[derive(Clone, Copy)]
pub enum Request<'a> {
    /// The A records of this name.
    Query(&'a [u8]),
    /// The same, of the name or of its candidates by the search list.
    Search(&'a [u8]),
    /// The names of an address.
    Reverse(Addr),
    /// The addresses of this family that a host has.
    Host(&'a [u8], Family),
    /// Those of both families, in the order in which they came.
    Unsorted(&'a [u8]),
}

/// A call of a channel.
#[derive(Clone, Copy)]
pub enum Call<'a> {
    Ask(Request<'a>),
    /// Begins an attempt with an identifier from this word upwards, at this moment.
    Start(u16, u64),
    /// A datagram of a server.
    Arrive(u32, &'a [u8]),
    /// A datagram of server 0: the reply with this identifier and response code to a question, with these records.
    Reply(u8, u8, &'a [u8], &'a [&'a [u8]]),
    /// Lets an attempt expire at this moment.
    Expire(u64),
    /// Fails the attempts on server 0 over this link, at moment 0.
    Fault(u64),
    /// Makes these the servers, of which there are 1 to 8.
    Servers(&'a [ServerAddr]),
    Cancel,
    Destroy,
    Take,
    /// Reads the counts, the first deadline, and whether an attempt is in flight on server 0 over link 0.
    Look,
}

/// A channel as this resolv.conf says, without hosts.
pub fn channel(alloc: Global, resolv: &[u8]) -> Result<Alone<Quiet>, Fail> {
    channel_of(alloc, read_resolv(alloc, resolv)?)
}

/// A channel with these options, without hosts.
pub fn channel_of(alloc: Global, options: Options) -> Result<Alone<Quiet>, Fail> {
    Ok(Alone::make(alloc, options, Hosts::empty(alloc))?)
}

/// Whether a channel as this resolv.conf says answers these calls by these lines.
pub fn is_answered(
    alloc: Global,
    resolv: &[u8],
    calls: &[Call<'_>],
    lines: &str,
) -> Result<bool, Fail> {
    answers_so(alloc, &mut channel(alloc, resolv)?, calls, lines)
}

/// Whether a channel answers these calls by these lines.
pub fn answers_so(
    alloc: Global,
    desk: &mut Alone<Quiet>,
    calls: &[Call<'_>],
    lines: &str,
) -> Result<bool, Fail> {
    Ok(answers_told(alloc, desk, calls)?.as_slice() == lines.as_bytes())
}

/// What a channel answers these calls, as lines.
pub fn answers_told(
    alloc: Global,
    desk: &mut Alone<Quiet>,
    calls: &[Call<'_>],
) -> Result<Vec<u8>, Fail> {
    let mut text = Vec::new(alloc);
    for call in calls {
        text.extend_from_slice(answer_told(alloc, desk, call)?.as_slice())?;
    }
    Ok(text)
}

/// The line of what a channel answers a call.
fn answer_told(alloc: Global, desk: &mut Alone<Quiet>, call: &Call<'_>) -> Result<Vec<u8>, Fail> {
    match *call {
        Call::Ask(request) => asked(alloc, desk, request),
        Call::Start(word, at) => moved_told(alloc, desk, Move::Start(word, at)),
        Call::Arrive(server, bytes) => moved_told(alloc, desk, Move::Arrive(server, bytes)),
        Call::Reply(id, code, question, records) => {
            let bytes = reply(alloc, id, code, question, records)?;
            moved_told(alloc, desk, Move::Arrive(0, bytes.as_slice()))
        }
        Call::Expire(at) => moved_told(alloc, desk, Move::Expire(at)),
        Call::Fault(link) => moved_told(alloc, desk, Move::Fault(link)),
        Call::Servers(servers) => set(alloc, desk, servers),
        Call::Cancel => cancelled(alloc, desk),
        Call::Destroy => destroyed(alloc, desk),
        Call::Take => taken(alloc, desk),
        Call::Look => looked(alloc, desk),
    }
}

/// The bytes of a text.
fn bytes_of(alloc: Global, text: &[u8]) -> Result<Bytes, Fail> {
    Ok(Bytes::of(alloc, text)?)
}

/// The request itself.
pub fn spec_of(alloc: Global, request: Request<'_>) -> Result<Spec, Fail> {
    Ok(match request {
        Request::Query(name) => Spec::Query {
            name: bytes_of(alloc, name)?,
            kind: KIND_A,
            class: CLASS_IN,
        },
        Request::Search(name) => Spec::Search {
            name: bytes_of(alloc, name)?,
            kind: KIND_A,
            class: CLASS_IN,
        },
        Request::Reverse(address) => Spec::Reverse { address },
        Request::Host(host, family) => Spec::Address {
            host: bytes_of(alloc, host)?,
            family,
            nosort: false,
        },
        Request::Unsorted(host) => Spec::Address {
            host: bytes_of(alloc, host)?,
            family: Family::Any,
            nosort: true,
        },
    })
}

fn asked(alloc: Global, desk: &mut Alone<Quiet>, request: Request<'_>) -> Result<Vec<u8>, Fail> {
    let answer = accepted(desk, spec_of(alloc, request)?, Quiet::new(alloc))?;
    accepted_told(alloc, answer)
}

/// The line of what a channel answers a request: its number, or why it is refused.
fn accepted_told(alloc: Global, answer: Result<u64, Refusal>) -> Result<Vec<u8>, Fail> {
    let line = match answer {
        Ok(number) => format!(in alloc; "request {number}\n")?,
        Err(why) => {
            let why = why.number();
            format!(in alloc; "refused {why}\n")?
        }
    };
    Ok(line.into_bytes())
}

fn moved_told(alloc: Global, desk: &mut Alone<Quiet>, step: Move<'_>) -> Result<Vec<u8>, Fail> {
    let line = match make_move(desk, step)? {
        Moved::Begun(begun) => begun_told(alloc, &begun)?,
        Moved::Landed(Landed::Matched { number, leg }) => format!(in alloc;
            "matched {number} leg {leg}\n"
        )?,
        Moved::Landed(Landed::Stray) => format!(in alloc; "stray\n")?,
        Moved::Lapse(Lapse::Expired { number, leg }) => format!(in alloc;
            "expired {number} leg {leg}\n"
        )?,
        Moved::Lapse(Lapse::NotDue) => format!(in alloc; "not due\n")?,
        Moved::Failed(count) => format!(in alloc; "failed {count}\n")?,
    };
    Ok(line.into_bytes())
}

/// Of a line, which leg of which request begins.
fn leg_told(alloc: Global, number: u64, leg: u8) -> Result<String, Fail> {
    Ok(format!(in alloc; "start {number} leg {leg}")?)
}

/// The rest of it: where the attempt goes, and its identifier.
fn way_told(alloc: Global, server: u32, link: u64, id: u16) -> Result<String, Fail> {
    Ok(format!(in alloc; " on {server} over {link} as {id}\n")?)
}

fn begun_told(alloc: Global, begun: &Begun) -> Result<String, Fail> {
    Ok(match *begun {
        Begun::Started {
            number,
            leg,
            server,
            link,
            id,
            ..
        } => {
            let mut line = leg_told(alloc, number, leg)?;
            line.push_str(way_told(alloc, server, link, id)?.as_str())?;
            line
        }
        Begun::Idle => format!(in alloc; "idle\n")?,
        Begun::NoId => format!(in alloc; "no identifier\n")?,
    })
}

/// The bytes of a reply (RFC 1035, section 4.1): QR, RD and RA are set.
fn reply(
    alloc: Global,
    id: u8,
    code: u8,
    question: &[u8],
    records: &[&[u8]],
) -> Result<Vec<u8>, Fail> {
    let mut bytes = Vec::new(alloc);
    let count = records.len().min(255) as u8;
    bytes.extend_from_slice(&[0, id, 0x81, 0x80 | code, 0, 1, 0, count, 0, 0, 0, 0])?;
    bytes.extend_from_slice(question)?;
    for record in records {
        bytes.extend_from_slice(record)?;
    }
    Ok(bytes)
}

fn set(alloc: Global, desk: &mut Alone<Quiet>, servers: &[ServerAddr]) -> Result<Vec<u8>, Fail> {
    if servers.is_empty() || 8 < servers.len() {
        return Ok(format!(in alloc; "no list\n")?.into_bytes());
    }
    let line = match listed(desk, servers)? {
        Ok(count) => format!(in alloc; "servers closed {count}\n")?,
        Err(SetFault::Closed) => format!(in alloc; "refused as closed\n")?,
        Err(SetFault::Full) => format!(in alloc; "refused as full\n")?,
        Err(SetFault::NoMemory) => format!(in alloc; "no memory\n")?,
    };
    Ok(line.into_bytes())
}

fn cancelled(alloc: Global, desk: &mut Alone<Quiet>) -> Result<Vec<u8>, Fail> {
    let count = desk.cancel();
    Ok(format!(in alloc; "cancelled {count}\n")?.into_bytes())
}

fn destroyed(alloc: Global, desk: &mut Alone<Quiet>) -> Result<Vec<u8>, Fail> {
    let line = if desk.destroy() {
        format!(in alloc; "destroyed\n")?
    } else {
        format!(in alloc; "destroyed before\n")?
    };
    Ok(line.into_bytes())
}

fn looked(alloc: Global, desk: &mut Alone<Quiet>) -> Result<Vec<u8>, Fail> {
    let Counts {
        pending,
        ready,
        waiting,
        flying,
    } = desk.counts();
    let due = desk.next_due().unwrap_or(0);
    let busy = u8::from(desk.link_busy(0, 0));
    let line = format!(in alloc;
        "pending {pending} ready {ready} waiting {waiting} flying {flying} due {due} busy {busy}\n"
    )?;
    Ok(line.into_bytes())
}

fn taken(alloc: Global, desk: &mut Alone<Quiet>) -> Result<Vec<u8>, Fail> {
    match desk.take() {
        Some(ticket) => ticket_told(alloc, ticket.answer()),
        None => Ok(format!(in alloc; "none ready\n")?.into_bytes()),
    }
}

/// A request's number, its status by the code of c-ares, its canonical name, and its addresses in order.
fn ticket_told(alloc: Global, answer: &Answer) -> Result<Vec<u8>, Fail> {
    let number = answer.number;
    let code = answer.status.code();
    let mut line = format!(in alloc; "take {number} status {code} ")?.into_bytes();
    line.extend_from_slice(answer.canonical.to_text(alloc)?.as_slice())?;
    for address in answer.addresses.as_slice() {
        line.push(b' ')?;
        line.extend_from_slice(print(alloc, *address)?.as_slice())?;
    }
    line.push(b'\n')?;
    Ok(line)
}
