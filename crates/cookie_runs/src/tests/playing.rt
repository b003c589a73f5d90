//! Calls of a World with cookies over a network in memory, and what both tell of them.

use cookie_world::CookieWorld;
use dns_message::NoMemory;
use net_addr::{Addr, ServerAddr};
use net_world::{Got, ScriptWorld, Sent, Waited, World, WorldCall, Wrote};
use scenario::{Coming, items_of, sent_in};
use std::alloc::Global;
use std::test::Fail;

/// The address that each server is told to have.
const SERVER: ServerAddr = ServerAddr {
    address: Addr::V4(0xc0000235),
    port: 53,
};

/// The random words of the network: the client cookies of the first, the second and the third server that is told.
const WORDS: &[u16; 12] = &[
    0x0102, 0x0304, 0x0506, 0x0708, 0x1112, 0x1314, 0x1516, 0x1718, 0x2122, 0x2324, 0x2526, 0x2728,
];

/// A call.
#[derive(Clone, Copy)]
pub enum Step<'a> {
    Serve(u32),
    Now,
    Word,
    Send(u32, &'a [u8]),
    Connect(u32, u64),
    Write(u64, &'a [u8]),
    Receive,
    Close(u64),
    Wait(u64),
}

/// What a World with cookies, and the network that it stands around, tell of some calls: a line each.
#[derive(Drop)]
pub struct Played {
    pub outer: String,
    pub inner: String,
    /// The bytes that the network was sent, one datagram behind the other.
    pub sent: Vec<u8>,
}

/// Makes the calls over a network on which this comes, where its calls of these numbers fail, counted from 0.
pub fn play(
    alloc: Global,
    comings: &[Coming<'_>],
    fails: &[u64],
    steps: &[Step<'_>],
) -> Result<Played, Fail> {
    let words = WORDS.to_vec(alloc)?;
    let script = ScriptWorld::make(words, items_of(alloc, comings)?, fails.to_vec(alloc)?);
    let mut world = CookieWorld::make(alloc, script);
    for step in steps {
        make(&mut world, step)?;
    }
    let (script, calls) = world.parts();
    Ok(Played {
        outer: lines_of(alloc, calls.as_slice())?,
        inner: lines_of(alloc, script.log().calls())?,
        sent: sent_in(alloc, script.log().calls())?,
    })
}

/// Makes a call. What it answers stands in the log.
fn make<W: World>(world: &mut W, step: &Step<'_>) -> Result<(), NoMemory> {
    match *step {
        Step::Serve(server) => world.serve(server, &SERVER)?,
        Step::Now => {
            world.now()?;
        }
        Step::Word => {
            world.word()?;
        }
        Step::Send(server, bytes) => {
            world.send(server, bytes)?;
        }
        Step::Connect(server, link) => {
            world.connect(server, link)?;
        }
        Step::Write(link, bytes) => {
            world.write(link, bytes)?;
        }
        Step::Receive => {
            let _ = world.receive()?;
        }
        Step::Close(link) => world.close(link)?,
        Step::Wait(until) => {
            world.wait(until)?;
        }
    }
    Ok(())
}

/// The calls, a line each.
fn lines_of(alloc: Global, calls: &[WorldCall]) -> Result<String, Fail> {
    let mut text = String::new(alloc);
    for call in calls {
        text.push_str(line_of(alloc, call)?.as_str())?;
    }
    Ok(text)
}

/// A call with its answer: of bytes it tells how many there are.
fn line_of(alloc: Global, call: &WorldCall) -> Result<String, Fail> {
    Ok(match call {
        WorldCall::Serve { server, .. } => format!(in alloc; "serve {server}\n")?,
        WorldCall::Now { reading } => format!(in alloc; "now {reading}\n")?,
        WorldCall::Word { word } => format!(in alloc; "word {word}\n")?,
        WorldCall::Send {
            server,
            bytes,
            sent,
        } => {
            let (len, end) = (bytes.len(), end_of(*sent));
            format!(in alloc; "send {server} {len} {end}\n")?
        }
        WorldCall::Connect { server, link, sent } => {
            let end = end_of(*sent);
            format!(in alloc; "connect {server} {link} {end}\n")?
        }
        WorldCall::Write { link, bytes, wrote } => {
            let (len, taken) = (bytes.len(), taken_of(*wrote));
            format!(in alloc; "write {link} {taken} of {len}\n")?
        }
        WorldCall::Receive { got } => line_of_got(alloc, got)?,
        WorldCall::Close { link } => format!(in alloc; "close {link}\n")?,
        WorldCall::Wait { until, waited } => {
            let end = match waited {
                Waited::Woken => "woken",
                Waited::Failed => "failed",
            };
            format!(in alloc; "wait {until} {end}\n")?
        }
    })
}

/// What was received.
fn line_of_got(alloc: Global, got: &Got) -> Result<String, Fail> {
    Ok(match got {
        Got::Datagram(server, bytes) => {
            let len = bytes.len();
            format!(in alloc; "datagram {server} {len}\n")?
        }
        Got::Piece(link, bytes) => {
            let len = bytes.len();
            format!(in alloc; "piece {link} {len}\n")?
        }
        Got::Ended(link) => format!(in alloc; "ended {link}\n")?,
        Got::Nothing => String::from_str(alloc, "nothing\n")?,
        Got::Failed(server, link) => format!(in alloc; "failed {server} {link}\n")?,
    })
}

/// How a datagram or the beginning of a link ended.
fn end_of(sent: Sent) -> &'static str {
    match sent {
        Sent::Sent => "sent",
        Sent::Failed => "failed",
    }
}

/// How many bytes a write took, none where it failed.
fn taken_of(wrote: Wrote) -> usize {
    match wrote {
        Wrote::Count(taken) => taken,
        Wrote::Failed => 0,
    }
}
