//! The listener and a whole run over loopback.

mod turns;

use item_list::{Bytes, NoMemory};
use net_addr::{Addr, ServerAddr};
use net_world::{Got, MemFiles, MemSink, Sent, World, Wrote};
use sock_engine::SockWorld;
use sock_listener::RealListener;
use std::alloc::Global;
use std::collections::BTreeMap;
use std::net::{Ipv4Addr, Net, SocketAddr, UdpSocket};
use std::test::Fail;
use test_nameserver::{Heard, Listener, run};

/// A query for the address of a.test. (RFC 1035, section 4.1).
const QUERY: &[u8] = b"\x12\x34\x01\0\0\x01\0\0\0\0\0\0\x01a\x04test\0\0\x01\0\x01";

/// The query behind its length, and the reply (RFC 1035, section 4.2.2).
const QUERY_FRAME: &[u8] = b"\0\x18\x12\x34\x01\0\0\x01\0\0\0\0\0\0\x01a\x04test\0\0\x01\0\x01";

const REPLY: &[u8] =
    b"\x12\x34\x85\x80\0\x01\0\x01\0\0\0\0\x01a\x04test\0\0\x01\0\x01\x01a\x04test\0\0\x01\0\x01\0\0\0\x3c\0\x04\xc0\0\x02\x01";

/// A port that was free just now.
fn free_port<R: Net>(rt: &R) -> Result<u16, Fail> {
    let any = SocketAddr::from((Ipv4Addr::LOCALHOST, 0));
    Ok(UdpSocket::bind(rt, any)?.local_addr()?.port())
}

/// Tells the World that its server 0 is this port.
fn knows<W: World>(world: &mut W, port: u16) -> Result<(), NoMemory> {
    world.serve(
        0,
        &ServerAddr {
            address: Addr::V4(0x7f00_0001),
            port,
        },
    )
}

/// Waits for some moments.
fn pause<W: World>(world: &mut W) -> Result<(), NoMemory> {
    let now = world.now()?;
    world.wait(now.saturating_add(100))?;
    Ok(())
}

/// What comes next, within some seconds.
fn next_got<W: World>(world: &mut W) -> Result<Got, NoMemory> {
    for _ in 0..100 {
        match world.receive()? {
            Got::Nothing => pause(world)?,
            got => return Ok(got),
        }
    }
    Ok(Got::Nothing)
}

/// A listener whose client asks over UDP as soon as it listens.
#[derive(Drop)]
struct Asked<L: Drop, W: Drop> {
    inner: L,
    client: W,
}

/// Asks the server on this port.
fn ask<W: World>(client: &mut W, port: u16) -> Result<Sent, NoMemory> {
    knows(client, port)?;
    client.send(0, QUERY)
}

impl<L: Listener + Drop, W: World + Drop> Listener for Asked<L, W> {
    ghost log = { λ l. L.log l.inner };

    ghost faults = { λ l. L.faults l.inner };

    fn listen(&mut self, port: u16) -> Result<Sent, NoMemory> {
        let sent = self.inner.listen(port)?;
        let _ = ask(&mut self.client, port);
        Ok(sent)
    }

    fn next(&mut self) -> Result<Heard, NoMemory> {
        self.inner.next()
    }

    fn reply(&mut self, bytes: &[u8]) -> Result<Sent, NoMemory> {
        self.inner.reply(bytes)
    }
}

/// Files with the zone `z`, in which a.test. has an address.
fn zone_file(alloc: Global) -> Result<MemFiles, Fail> {
    let mut files = BTreeMap::new(alloc);
    let text = Bytes::of(alloc, b"a.test. 60 A 192.0.2.1")?;
    files.insert(String::from_str(alloc, "z")?, text)?;
    Ok(MemFiles::make(files, Vec::new(alloc)))
}

/// The exit status of a run on this port behind one message.
fn status_of<L: Listener>(alloc: Global, port: &str, files: &mut MemFiles, listener: &mut L) -> u8 {
    let words = ["--port", port, "--zone", "z", "--count", "1"];
    let mut sink = MemSink::make(Vec::new(alloc));
    run(alloc, words.as_slice(), files, &mut sink, listener)
}

/// The same over that zone.
fn ran<L: Listener>(alloc: Global, port: u16, listener: &mut L) -> Result<u8, Fail> {
    let port = format!(in alloc; "{port}")?;
    let mut files = zone_file(alloc)?;
    Ok(status_of(alloc, port.as_str(), &mut files, listener))
}

/// Whether the reply comes.
fn gets_reply<W: World>(client: &mut W) -> Result<bool, NoMemory> {
    Ok(match next_got(client)? {
        Got::Datagram(0, bytes) => bytes.as_slice() == REPLY,
        _ => false,
    })
}

/// Whether a run ends well, and its client has the reply.
fn answers<L: Listener + Drop, W: World + Drop>(
    alloc: Global,
    port: u16,
    listener: &mut Asked<L, W>,
) -> Result<bool, Fail> {
    Ok(ran(alloc, port, listener)? == 0 && gets_reply(&mut listener.client)?)
}

/// Whether it is so over loopback.
fn answers_over_loopback(rt: HostRuntime) -> Result<bool, Fail> {
    let port = free_port(&rt)?;
    let client = SockWorld::make(rt)?;
    let inner = RealListener::make(rt);
    answers(rt.alloc(), port, &mut Asked { inner, client })
}

#[test]
fn a_run_answers_over_udp(rt: HostRuntime) -> Result<(), Fail> {
    assert!(rt; answers_over_loopback(rt)?);
    Ok(())
}

/// Writes all bytes to connection 7, within some seconds. It is true where they were taken.
fn write_all<W: World>(client: &mut W, bytes: &[u8]) -> Result<bool, NoMemory> {
    let mut rest = bytes;
    for _ in 0..100 {
        match client.write(7, rest)? {
            Wrote::Count(count) => rest = rest.get(count..).unwrap_or(&[]),
            Wrote::Failed => return Ok(false),
        }
        if rest.is_empty() {
            return Ok(true);
        }
        pause(client)?;
    }
    Ok(false)
}

/// Reads what comes next over connection 7. It is true where something comes.
fn read_piece<W: World>(client: &mut W, bytes: &mut Vec<u8>) -> Result<bool, Fail> {
    Ok(match next_got(client)? {
        Got::Piece(7, piece) => {
            bytes.extend_from_slice(piece.as_slice())?;
            true
        }
        _ => false,
    })
}

/// Reads what comes over connection 7, until there are so many bytes.
fn read_all<W: World>(client: &mut W, bytes: &mut Vec<u8>, len: usize) -> Result<(), Fail> {
    for _ in 0..len {
        if bytes.len() >= len || !read_piece(client, bytes)? {
            return Ok(());
        }
    }
    Ok(())
}

/// Whether these bytes come over connection 7.
fn reads<W: World>(alloc: Global, client: &mut W, expected: &[u8]) -> Result<bool, Fail> {
    let mut bytes = Vec::new(alloc);
    read_all(client, &mut bytes, expected.len())?;
    Ok(bytes.as_slice() == expected)
}

/// Connects to this port, and asks twice.
fn ask_twice<W: World>(client: &mut W, port: u16) -> Result<bool, NoMemory> {
    knows(client, port)?;
    client.connect(0, 7)?;
    Ok(write_all(client, QUERY_FRAME)? && write_all(client, QUERY_FRAME)?)
}

/// Whether the query is heard next over TCP.
fn hears_query<L: Listener>(listener: &mut L) -> Result<bool, NoMemory> {
    Ok(match listener.next()? {
        Heard::Message { tcp: true, bytes } => bytes.as_slice() == QUERY,
        _ => false,
    })
}

/// Whether the query is heard next over TCP, and a reply is sent.
fn is_answered<L: Listener>(listener: &mut L, reply: &[u8]) -> Result<bool, NoMemory> {
    Ok(hears_query(listener)? && listener.reply(reply)? == Sent::Sent)
}

/// Whether two queries over one connection have replies.
fn carries<L: Listener, W: World>(
    alloc: Global,
    port: u16,
    listener: &mut L,
    client: &mut W,
) -> Result<bool, Fail> {
    Ok(
        listener.listen(port)? == Sent::Sent
            && ask_twice(client, port)?
            && is_answered(listener, b"one")?
            && is_answered(listener, b"two")?
            && reads(alloc, client, b"\0\x03one\0\x03two")?,
    )
}

/// Whether it is so over loopback.
fn carries_over_loopback(rt: HostRuntime) -> Result<bool, Fail> {
    let port = free_port(&rt)?;
    let mut client = SockWorld::make(rt)?;
    carries(rt.alloc(), port, &mut RealListener::make(rt), &mut client)
}

// Two queries over one connection, each with a reply of its own.
#[test]
fn a_connection_carries_messages(rt: HostRuntime) -> Result<(), Fail> {
    assert!(rt; carries_over_loopback(rt)?);
    Ok(())
}

/// Whether each call fails.
fn fails<L: Listener>(listener: &mut L, port: u16) -> Result<bool, NoMemory> {
    Ok(
        listener.reply(b"a")? == Sent::Failed
            && listener.next()? == Heard::Failed
            && listener.listen(port)? == Sent::Failed,
    )
}

/// Whether a port is the first listener's alone, which has nobody to reply to.
fn is_first<L: Listener>(first: &mut L, second: &mut L, port: u16) -> Result<bool, NoMemory> {
    Ok(
        first.listen(port)? == Sent::Sent
            && first.reply(b"a")? == Sent::Failed
            && fails(second, port)?,
    )
}

/// Whether it is so over loopback.
fn is_first_over_loopback(rt: HostRuntime) -> Result<bool, Fail> {
    let port = free_port(&rt)?;
    let mut first = RealListener::make(rt);
    Ok(is_first(&mut first, &mut RealListener::make(rt), port)?)
}

// A listener that doesn't listen hears and sends nothing, and one port has one listener.
#[test]
fn a_port_has_one_listener(rt: HostRuntime) -> Result<(), Fail> {
    assert!(rt; is_first_over_loopback(rt)?);
    Ok(())
}
