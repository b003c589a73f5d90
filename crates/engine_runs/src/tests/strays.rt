//! What can't answer a query is dropped where it comes in.

use super::calls::{is_begun, is_next, is_sent, is_silent, next, pause, serve, write};
use super::servers::far_socket;
use super::*;
use std::io::{Read, Write};
use std::net::{TcpListener, TcpStream};

/// Eleven bytes with the query's identifier and the bit QR.
const SHORT: &[u8] = b"na\x81\x80\0\x01\0\0\0\0\0";

/// A reply with an identifier that wasn't sent.
const OTHER: &[u8] = b"nb\x81\x80\0\x01\0\0\0\0\0\0";

/// Asks the far socket. Answers where that comes from.
fn origin<W: World>(world: &mut W, far: &UdpSocket) -> Result<SocketAddr, Fail> {
    let mut buffer = [0u8; 64];
    serve(world, 7, port_of(far)?)?;
    is_sent(world, 7, QUERY)?;
    let (_, from) = far.recv_from(&mut buffer)?;
    Ok(from)
}

/// Sends these datagrams there.
fn send_each(far: &UdpSocket, to: SocketAddr, all: &[&[u8]]) -> Result<(), Fail> {
    for bytes in all {
        far.send_to(bytes, to)?;
    }
    Ok(())
}

/// Three strays, a reply, and the strays again.
const STRAYS: &[&[u8]] = &[SHORT, QUERY, OTHER, ONE, SHORT, QUERY, OTHER];

/// Whether of these the reply alone is received.
fn drops_strays<W: World>(alloc: Global, world: &mut W, far: &UdpSocket) -> Result<bool, Fail> {
    let from = origin(world, far)?;
    send_each(far, from, STRAYS)?;
    if !is_next(alloc, world, 7, ONE)? {
        return Ok(false);
    }
    pause(world, 20)?;
    Ok(is_silent(world)?)
}

/// Three strays come, then a reply, and the strays again: the reply alone is received.
#[test]
fn strays_are_dropped(rt: HostRuntime) -> Result<(), Fail> {
    let far = far_socket(&rt, any_local())?;
    assert!(rt; drops_strays(rt.alloc(), &mut SockWorld::make(rt)?, &far)?);
    Ok(())
}

/// Sends a reply so many times, and answers how many come.
fn flooded<W: World>(
    world: &mut W,
    far: &UdpSocket,
    to: SocketAddr,
    times: usize,
) -> Result<usize, Fail> {
    for _ in 0..times {
        far.send_to(ONE, to)?;
    }
    Ok(count_now(world)?)
}

/// How many of 300 replies to one query come, of which 100 are sent first.
fn flood_taken<W: World>(world: &mut W, far: &UdpSocket) -> Result<usize, Fail> {
    let from = origin(world, far)?;
    let first = flooded(world, far, from, 100)?;
    Ok(first.saturating_add(flooded(world, far, from, 200)?))
}

/// A query has 255 replies at most. The last ones of 300 are dropped.
#[test]
fn a_flood_of_replies_ends(rt: HostRuntime) -> Result<(), Fail> {
    let far = far_socket(&rt, any_local())?;
    assert_eq!(rt; flood_taken(&mut SockWorld::make(rt)?, &far)?, 255);
    Ok(())
}

/// How many datagrams come within some waits.
fn count_now<W: World>(world: &mut W) -> Result<usize, NoMemory> {
    let mut count = 0usize;
    for _ in 0..400 {
        if is_silent(world)? {
            pause(world, 20)?;
            if is_silent(world)? {
                return Ok(count);
            }
        }
        count = count.saturating_add(1);
    }
    Ok(count)
}

/// How many bytes a piece of link 2 has, of 16 KiB at most.
fn piece_length(got: &Got) -> Option<usize> {
    match got {
        Got::Piece(2, bytes) if bytes.as_slice().len() <= 16_384 => Some(bytes.as_slice().len()),
        _ => None,
    }
}

/// How many bytes come on link 2 up to its end, in pieces of at most 16 KiB; none where something else comes.
fn bytes_to_end<W: World>(world: &mut W) -> Result<usize, NoMemory> {
    let mut count = 0usize;
    for _ in 0..100_000 {
        let got = next(world)?;
        if got == Got::Ended(2) {
            return Ok(count);
        }
        let Some(length) = piece_length(&got) else {
            return Ok(0);
        };
        count = count.saturating_add(length);
    }
    Ok(0)
}

/// Two queries over TCP of four bytes each, behind their lengths (RFC 1035, section 4.2.2).
const FRAMES: &[u8] = b"\0\x04aaaa\0\x04bbbb";

/// Has a link that takes two queries, to a listener. Answers the other side of it.
fn linked<W: World>(world: &mut W, listener: &TcpListener) -> Result<TcpStream, Fail> {
    serve(world, 1, listener.local_addr()?.port())?;
    is_begun(world, 1, 2)?;
    let (stream, _) = listener.accept()?;
    pause(world, 20)?;
    match write(world, 2, FRAMES)? {
        Wrote::Count(12) => Ok(stream),
        _ => Err("the queries weren't taken")?,
    }
}

/// Sends so many bytes behind the two queries, and doesn't end the link.
fn send_many(alloc: Global, stream: &mut TcpStream, len: usize) -> Result<(), Fail> {
    let mut heard = [0u8; 12];
    stream.read_exact(&mut heard)?;
    let bytes = Vec::from_elem(alloc, 7u8, len)?;
    stream.write_all(bytes.as_slice())?;
    Ok(())
}

/// How many bytes come on a link that took two queries, of so many that are sent by the other side.
fn brought<W: World>(
    alloc: Global,
    world: &mut W,
    listener: &TcpListener,
    len: usize,
) -> Result<usize, Fail> {
    let mut stream = linked(world, listener)?;
    send_many(alloc, &mut stream, len)?;
    Ok(bytes_to_end(world)?)
}

/// A link may bring 65,537 bytes for each query, and is ended where it brings one more.
#[test]
fn a_flood_over_tcp_ends(rt: HostRuntime) -> Result<(), Fail> {
    let listener = TcpListener::bind(&rt, any_local())?;
    let count = brought(rt.alloc(), &mut SockWorld::make(rt)?, &listener, 131_075)?;
    assert_eq!(rt; count, 131_075);
    Ok(())
}
