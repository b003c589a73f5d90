//! Which sockets are read: each server's, and the older ones of an address as long as it is the server's.

use super::calls::{is_next, is_sent, pause, receive, serve, stays_silent};
use super::servers::far_socket;
use super::*;

/// How many queries a socket serves at most.
const SOCKET_SHARE: usize = 128;

/// Where a query to the server comes from, as the far socket sees it.
fn origin<W: World>(world: &mut W, server: u32, far: &UdpSocket) -> Result<SocketAddr, Fail> {
    let mut buffer = [0u8; 64];
    is_sent(world, server, QUERY)?;
    let (_, from) = far.recv_from(&mut buffer)?;
    Ok(from)
}

/// Tells that the server is at the far socket, and asks it. Answers where that comes from.
fn asked<W: World>(world: &mut W, server: u32, far: &UdpSocket) -> Result<SocketAddr, Fail> {
    serve(world, server, port_of(far)?)?;
    origin(world, server, far)
}

/// Asks so many times, and once more. Answers where the last query comes from.
fn asked_often<W: World>(
    world: &mut W,
    server: u32,
    far: &UdpSocket,
    times: usize,
) -> Result<SocketAddr, Fail> {
    for _ in 0..times {
        origin(world, server, far)?;
    }
    origin(world, server, far)
}

/// Asks as often as a socket serves. Answers where the last query comes from.
fn asked_by_a_share<W: World>(
    world: &mut W,
    server: u32,
    far: &UdpSocket,
) -> Result<SocketAddr, Fail> {
    asked_often(world, server, far, SOCKET_SHARE - 1)
}

/// Sends this there.
fn reply(far: &UdpSocket, to: SocketAddr, bytes: &[u8]) -> Result<(), Fail> {
    far.send_to(bytes, to)?;
    Ok(())
}

/// Whether this, sent to a query that came from there, isn't received.
fn is_lost<W: World>(
    world: &mut W,
    far: &UdpSocket,
    to: SocketAddr,
    bytes: &[u8],
) -> Result<bool, Fail> {
    reply(far, to, bytes)?;
    Ok(stays_silent(world)?)
}

/// Whether two servers are heard that are asked one behind the other, the later one first.
fn hears_two<W: World>(
    alloc: Global,
    world: &mut W,
    one: &UdpSocket,
    two: &UdpSocket,
) -> Result<bool, Fail> {
    let first = asked(world, 7, one)?;
    let second = asked(world, 8, two)?;
    reply(two, second, TWO)?;
    if !is_next(alloc, world, 8, TWO)? {
        return Ok(false);
    }
    reply(one, first, ONE)?;
    Ok(is_next(alloc, world, 7, ONE)?)
}

/// Two servers are asked, and the later one replies first.
#[test]
fn two_servers_are_heard(rt: HostRuntime) -> Result<(), Fail> {
    let (one, two) = (far_socket(&rt, any_local())?, far_socket(&rt, any_local())?);
    assert!(rt; hears_two(rt.alloc(), &mut SockWorld::make(rt)?, &one, &two)?);
    Ok(())
}

/// Whether a server that moves from one socket to the other is heard there alone.
fn hears_moved<W: World>(
    alloc: Global,
    world: &mut W,
    one: &UdpSocket,
    two: &UdpSocket,
) -> Result<bool, Fail> {
    let before = asked(world, 7, one)?;
    let behind = asked(world, 7, two)?;
    if !is_lost(world, one, before, ONE)? {
        return Ok(false);
    }
    reply(two, behind, TWO)?;
    Ok(is_next(alloc, world, 7, TWO)?)
}

/// A server moves while it is asked. The next query goes to the new address, and the old one isn't heard any more.
#[test]
fn a_server_moves(rt: HostRuntime) -> Result<(), Fail> {
    let (one, two) = (far_socket(&rt, any_local())?, far_socket(&rt, any_local())?);
    assert!(rt; hears_moved(rt.alloc(), &mut SockWorld::make(rt)?, &one, &two)?);
    Ok(())
}

/// Has two sockets replaced, each by another one. Answers where the first and the second ask from; nothing may come.
fn replaced<W: World>(world: &mut W, far: &UdpSocket) -> Result<(SocketAddr, SocketAddr), Fail> {
    let first = asked(world, 7, far)?;
    let second = asked_by_a_share(world, 7, far)?;
    let third = asked_by_a_share(world, 7, far)?;
    if third != second && second != first && stays_silent(world)? {
        Ok((first, second))
    } else {
        Err("a socket wasn't replaced, or something came")?
    }
}

/// Whether replies to the replaced ones are received, the later one first, and none any more once the server has moved.
fn hears_older<W: World>(
    alloc: Global,
    world: &mut W,
    one: &UdpSocket,
    two: &UdpSocket,
) -> Result<bool, Fail> {
    let (first, second) = replaced(world, one)?;
    reply(one, second, TWO)?;
    if !is_next(alloc, world, 7, TWO)? {
        return Ok(false);
    }
    reply(one, first, THREE)?;
    if !is_next(alloc, world, 7, THREE)? {
        return Ok(false);
    }
    asked(world, 7, two)?;
    is_lost(world, one, first, ONE)
}

/// Sockets are replaced while their queries are unanswered, which are 257 in all: as many are in flight before any waits. A reply
/// that comes to one of them behind a wait is received, unless the server has moved.
#[test]
fn older_sockets_are_heard(rt: HostRuntime) -> Result<(), Fail> {
    let (one, two) = (far_socket(&rt, any_local())?, far_socket(&rt, any_local())?);
    assert!(rt; hears_older(rt.alloc(), &mut SockWorld::make(rt)?, &one, &two)?);
    Ok(())
}

/// Whether a reply to the first of 256 queries is at hand, behind which nobody waited.
fn finds_reply<W: World>(alloc: Global, world: &mut W, far: &UdpSocket) -> Result<bool, Fail> {
    let first = asked(world, 7, far)?;
    reply(far, first, ONE)?;
    asked_often(world, 7, far, 254)?;
    Ok(receive(world)? == Got::Datagram(7, Bytes::of(alloc, ONE)?))
}

/// Nobody waits while 256 queries are sent, and a reply to the first one is at hand then.
#[test]
fn sends_look_for_replies(rt: HostRuntime) -> Result<(), Fail> {
    let far = far_socket(&rt, any_local())?;
    assert!(rt; finds_reply(rt.alloc(), &mut SockWorld::make(rt)?, &far)?);
    Ok(())
}

/// How many datagrams come with at most so many waits.
fn count_within<W: World>(world: &mut W, waits: u32) -> Result<usize, NoMemory> {
    let mut count: usize = 0;
    for _ in 0..waits {
        count = count.saturating_add(count_at_hand(world)?);
        pause(world, 20)?;
    }
    Ok(count)
}

/// How many datagrams are at hand, of as many as a socket has queries.
fn count_at_hand<W: World>(world: &mut W) -> Result<usize, NoMemory> {
    for count in 0..SOCKET_SHARE {
        if receive(world)? == Got::Nothing {
            return Ok(count);
        }
    }
    Ok(SOCKET_SHARE)
}

/// How many of 100 replies to one query come with at most three waits.
fn further_taken<W: World>(world: &mut W, far: &UdpSocket) -> Result<usize, Fail> {
    let from = asked(world, 7, far)?;
    for _ in 0..100 {
        reply(far, from, REPLY)?;
    }
    Ok(count_within(world, 3)?)
}

/// More replies than there were queries come together, and not one behind each wait.
#[test]
fn further_replies_come_together(rt: HostRuntime) -> Result<(), Fail> {
    let far = far_socket(&rt, any_local())?;
    assert_eq!(rt; further_taken(&mut SockWorld::make(rt)?, &far)?, 100);
    Ok(())
}
