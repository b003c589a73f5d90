//! Which client is heard when many are there, over loopback.

use item_list::NoMemory;
use net_world::Sent;
use sock_listener::RealListener;
use std::fs;
use std::io::{Read, Write};
use std::net::{Ipv4Addr, SocketAddr, TcpStream, UdpSocket};
use std::test::Fail;
use std::thread::sleep;
use std::time::{Clock, Duration};
use test_nameserver::{Heard, Listener};

/// A listener that listens on a port that was free just now, and where that is.
fn listening(rt: HostRuntime) -> Result<(RealListener<HostRuntime>, SocketAddr), Fail> {
    let any = SocketAddr::from((Ipv4Addr::LOCALHOST, 0));
    let at = UdpSocket::bind(&rt, any)?.local_addr()?;
    let mut listener = RealListener::make(rt);
    match listener.listen(at.port())? {
        Sent::Sent => Ok((listener, at)),
        Sent::Failed => Err("the port is taken")?,
    }
}

/// Sends a message of one byte over a connection (RFC 1035, section 4.2.2).
fn say(mut client: &TcpStream, byte: u8) -> Result<(), Fail> {
    client.write_all(&[0, 1, byte])?;
    Ok(())
}

/// The message of one byte that is heard next, and whether it came over TCP.
fn heard<L: Listener>(listener: &mut L) -> Result<Option<(bool, u8)>, NoMemory> {
    Ok(match listener.next()? {
        Heard::Message { tcp, bytes } => match bytes.as_slice() {
            [byte] => Some((tcp, *byte)),
            _ => None,
        },
        Heard::Failed => None,
    })
}

/// Whether these messages are heard next, in this order.
fn hears<L: Listener>(listener: &mut L, messages: &[(bool, u8)]) -> Result<bool, NoMemory> {
    for message in messages {
        if heard(listener)? != Some(*message) {
            return Ok(false);
        }
    }
    Ok(true)
}

/// So many clients that say nothing.
fn silent_clients(rt: HostRuntime, at: SocketAddr, count: u32) -> Result<Vec<TcpStream>, Fail> {
    let mut clients = Vec::new(rt.alloc());
    for _ in 0..count {
        clients.push(TcpStream::connect(&rt, at)?)?;
    }
    Ok(clients)
}

/// Whether the server has closed this connection, within a second.
fn is_closed(mut client: &TcpStream) -> Result<bool, Fail> {
    client.set_read_timeout(Some(Duration::from_secs(1)))?;
    Ok(client.read(&mut [0u8; 1]).is_ok_and(|count| count == 0))
}

/// Whether what this client says is heard next.
fn is_heard<L: Listener>(listener: &mut L, client: &TcpStream, byte: u8) -> Result<bool, Fail> {
    say(client, byte)?;
    Ok(hears(listener, &[(true, byte)])?)
}

/// Whether each of these clients is heard.
fn are_heard<L: Listener>(listener: &mut L, clients: &[TcpStream]) -> Result<bool, Fail> {
    for client in clients {
        if !is_heard(listener, client, b's')? {
            return Ok(false);
        }
    }
    Ok(true)
}

/// Whether a client that comes late is heard, ten seconds behind the last word of the one that has been silent for longest,
/// and that one is closed.
fn takes_the_place<L: Listener>(
    rt: HostRuntime,
    listener: &mut L,
    late: &TcpStream,
    oldest: &TcpStream,
    last_word: Duration,
) -> Result<bool, Fail> {
    let is_heard = is_heard(listener, late, b'l')?;
    let now = rt.monotonic()?.as_millis();
    let silence = now.saturating_sub(last_word.as_millis());
    Ok(is_heard && silence >= 9_990 && is_closed(oldest)?)
}

/// Whether the one of 256 clients that has been silent for longest gives way to one more, and the others keep their places.
fn gives_way<L: Listener>(rt: HostRuntime, listener: &mut L, at: SocketAddr) -> Result<bool, Fail> {
    let oldest = TcpStream::connect(&rt, at)?;
    let first = is_heard(listener, &oldest, b'o')?;
    let last_word = rt.monotonic()?;
    sleep(&rt, Duration::from_millis(100));
    let younger = TcpStream::connect(&rt, at)?;
    let second = is_heard(listener, &younger, b'y')?;
    let others = silent_clients(rt, at, 254)?;
    let late = TcpStream::connect(&rt, at)?;
    let third = takes_the_place(rt, listener, &late, &oldest, last_word)?;
    let kept = are_heard(listener, others.as_slice())? && is_heard(listener, &younger, b'y')?;
    Ok(first && second && third && kept)
}

// All 256 places are taken, and one more client asks: it is heard ten seconds behind the last word of the client that has
// been silent for longest, and has that one's place. The others keep theirs.
#[test]
fn the_client_that_is_silent_for_longest_gives_way(rt: HostRuntime) -> Result<(), Fail> {
    let (mut listener, at) = listening(rt)?;
    assert!(rt; gives_way(rt, &mut listener, at)?);
    Ok(())
}

/// Says so many messages of one byte.
fn say_often(client: &TcpStream, byte: u8, times: u32) -> Result<(), Fail> {
    for _ in 0..times {
        say(client, byte)?;
    }
    Ok(())
}

/// Whether two clients have turns.
fn gives_turns<L: Listener>(
    rt: HostRuntime,
    listener: &mut L,
    at: SocketAddr,
) -> Result<bool, Fail> {
    let busy = TcpStream::connect(&rt, at)?;
    let other = TcpStream::connect(&rt, at)?;
    say_often(&busy, b'b', 3)?;
    say(&other, b'o')?;
    let expected = [(true, b'b'), (true, b'o'), (true, b'b'), (true, b'b')];
    Ok(hears(listener, &expected)?)
}

// A client that has sent three messages at once, and one that has sent one: that one has the second turn.
#[test]
fn connections_have_turns(rt: HostRuntime) -> Result<(), Fail> {
    let (mut listener, at) = listening(rt)?;
    assert!(rt; gives_turns(rt, &mut listener, at)?);
    Ok(())
}

/// A socket that sends datagrams.
fn sender(rt: HostRuntime) -> Result<UdpSocket, Fail> {
    let any = SocketAddr::from((Ipv4Addr::LOCALHOST, 0));
    Ok(UdpSocket::bind(&rt, any)?)
}

/// Sends so many datagrams of one byte.
fn send_often(socket: &UdpSocket, at: SocketAddr, times: u32) -> Result<(), Fail> {
    for _ in 0..times {
        socket.send_to(b"u", at)?;
    }
    Ok(())
}

/// Three messages over a connection, and a datagram behind each.
fn say_both_ways(client: &TcpStream, socket: &UdpSocket, at: SocketAddr) -> Result<(), Fail> {
    for _ in 0..3 {
        say(client, b't')?;
        socket.send_to(b"u", at)?;
    }
    Ok(())
}

/// Whether datagrams and the messages of a connection have turns.
fn gives_both_turns<L: Listener>(
    rt: HostRuntime,
    listener: &mut L,
    at: SocketAddr,
) -> Result<bool, Fail> {
    let client = TcpStream::connect(&rt, at)?;
    let socket = sender(rt)?;
    say_both_ways(&client, &socket, at)?;
    let expected = [
        (false, b'u'),
        (true, b't'),
        (false, b'u'),
        (true, b't'),
        (false, b'u'),
        (true, b't'),
    ];
    Ok(hears(listener, &expected)?)
}

// Datagrams and the messages of a connection have turns.
#[test]
fn both_transports_have_turns(rt: HostRuntime) -> Result<(), Fail> {
    let (mut listener, at) = listening(rt)?;
    assert!(rt; gives_both_turns(rt, &mut listener, at)?);
    Ok(())
}

/// Whether of forty datagrams one is heard, and then a client before half of the others.
fn hears_behind_datagrams<L: Listener>(
    rt: HostRuntime,
    listener: &mut L,
    at: SocketAddr,
) -> Result<bool, Fail> {
    let socket = sender(rt)?;
    send_often(&socket, at, 40)?;
    let first = hears(listener, &[(false, b'u')])?;
    let client = TcpStream::connect(&rt, at)?;
    say(&client, b't')?;
    Ok(first && hears_another(listener)?)
}

/// Whether one of the next twenty messages isn't the datagram `u`.
fn hears_another<L: Listener>(listener: &mut L) -> Result<bool, NoMemory> {
    for _ in 0..20 {
        if heard(listener)? != Some((false, b'u')) {
            return Ok(true);
        }
    }
    Ok(false)
}

// Forty datagrams wait when a client connects: it is heard before half of them are.
#[test]
fn datagrams_hide_no_connection(rt: HostRuntime) -> Result<(), Fail> {
    let (mut listener, at) = listening(rt)?;
    assert!(rt; hears_behind_datagrams(rt, &mut listener, at)?);
    Ok(())
}

/// The largest receive buffer that the system allows, where it tells that.
fn most_allowed(rt: HostRuntime) -> Option<u32> {
    match fs::read_to_string(&rt, "/proc/sys/net/core/rmem_max") {
        Ok(text) => text.trim().parse().ok(),
        Err(_) => None,
    }
}

/// The receive buffer of a listener that listens.
fn buffer_of(rt: HostRuntime) -> Result<Option<u32>, Fail> {
    let (listener, _) = listening(rt)?;
    Ok(listener.receive_buffer())
}

/// Whether a receive buffer is as large as may be.
fn is_largest(size: Option<u32>, most: Option<u32>) -> bool {
    match most {
        Some(most) => size == Some(most.min(8_388_608)),
        None => size != None && size != Some(0),
    }
}

// The receive buffer has the 8 MiB that are asked for, or what the system allows at most, where it tells that.
#[test]
fn the_receive_buffer_is_as_large_as_may_be(rt: HostRuntime) -> Result<(), Fail> {
    assert!(rt; RealListener::make(rt).receive_buffer().is_none());
    assert!(rt; is_largest(buffer_of(rt)?, most_allowed(rt)));
    Ok(())
}
