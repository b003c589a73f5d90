//! Servers over UDP.

use super::calls::{is_next, is_sent, is_silent, next, now, serve};
use super::*;
use std::thread;
use std::thread::Threads;
use std::time::Duration;

/// A header's length, a query's usual one, and the longest payload over IPv4 (RFC 768, RFC 791: 65,535 - 8 - 20).
const LENGTHS: [usize; 3] = [12, 40, 65_507];

/// How many short queries follow.
const MANY: usize = 300;

/// Sends so many datagrams back as replies, and answers how often the port they came from changed.
fn echo(far: &UdpSocket, times: usize) -> usize {
    let mut buffer = [0u8; 65_535];
    let (mut last, mut changes) = (0, 0usize);
    for _ in 0..times {
        let Ok((len, from)) = far.recv_from(&mut buffer) else {
            return changes;
        };
        if from.port() != last {
            last = from.port();
            changes = changes.saturating_add(1);
        }
        set_reply(&mut buffer);
        let _ = far.send_to(&buffer[..len], from);
    }
    changes
}

pub fn far_socket(rt: &HostRuntime, at: SocketAddr) -> std::io::Result<UdpSocket> {
    let far = UdpSocket::bind(rt, at)?;
    far.set_read_timeout(Some(Duration::from_secs(10)))?;
    Ok(far)
}

/// Whether a query is answered by its echo.
fn is_echoed<W: World>(alloc: Global, world: &mut W, query: &mut [u8]) -> Result<bool, NoMemory> {
    if !is_sent(world, 7, query)? {
        return Ok(false);
    }
    set_reply(query);
    is_next(alloc, world, 7, query)
}

/// The same of one of so many bytes.
fn is_long_echoed<W: World>(alloc: Global, world: &mut W, len: usize) -> Result<bool, NoMemory> {
    let mut query = Vec::from_elem(alloc, 9u8, len)?;
    is_echoed(alloc, world, query.as_mut_slice())
}

/// Whether a query of each length is answered.
fn are_echoed<W: World>(alloc: Global, world: &mut W) -> Result<bool, NoMemory> {
    for len in LENGTHS {
        if !is_long_echoed(alloc, world, len)? {
            return Ok(false);
        }
    }
    Ok(true)
}

/// Whether each of many short queries is answered.
fn are_short_echoed<W: World>(alloc: Global, world: &mut W) -> Result<bool, NoMemory> {
    for _ in 0..MANY {
        if !is_long_echoed(alloc, world, QUERY.len())? {
            return Ok(false);
        }
    }
    Ok(true)
}

/// Whether the server at the port answers all of these.
fn all_are_echoed<W: World>(alloc: Global, world: &mut W, port: u16) -> Result<bool, NoMemory> {
    serve(world, 7, port)?;
    Ok(are_echoed(alloc, world)? && are_short_echoed(alloc, world)?)
}

/// A thread that sends so many datagrams back.
fn echo_thread<R: Threads>(
    threads: &R,
    far: UdpSocket,
    times: usize,
) -> Result<thread::JoinHandle<usize>, Fail> {
    Ok(thread::spawn(threads, move || echo(&far, times))?)
}

/// How often an echo sees the port change from which a network asks; none where it isn't answered.
fn changes_seen<R: Threads, W: World>(
    threads: &R,
    alloc: Global,
    far: UdpSocket,
    world: &mut W,
) -> Result<usize, Fail> {
    let port = port_of(&far)?;
    let child = echo_thread(threads, far, LENGTHS.len() + MANY)?;
    let all = all_are_echoed(alloc, world, port)?;
    let changes = child.join(threads);
    if all { Ok(changes) } else { Ok(0) }
}

/// Whether it sees 19, and then nothing else comes.
fn sees_changes<R: Threads, W: World>(
    threads: &R,
    alloc: Global,
    far: UdpSocket,
    world: &mut W,
) -> Result<bool, Fail> {
    Ok(changes_seen(threads, alloc, far, world)? == 19 && is_silent(world)?)
}

/// An echo answers each length, and then many short queries, one after the other. Each sixteen come from a port of their
/// own: 303 queries, 18 times 16 and 15.
#[test]
fn an_echo_answers(rt: HostRuntime) -> Result<(), Fail> {
    let far = far_socket(&rt, any_local())?;
    assert!(rt; sees_changes(&rt, rt.alloc(), far, &mut SockWorld::make(rt)?)?);
    Ok(())
}

/// Sends a datagram back twice as a reply, and answers how often that could be done.
fn echo_twice(far: &UdpSocket) -> usize {
    let mut buffer = [0u8; 64];
    let Ok((len, from)) = far.recv_from(&mut buffer) else {
        return 0;
    };
    set_reply(&mut buffer);
    let mut sent = 0usize;
    for _ in 0..2 {
        if far.send_to(&buffer[..len], from).is_ok() {
            sent = sent.saturating_add(1);
        }
    }
    sent
}

/// A thread that sends a datagram back twice.
fn twice_thread<R: Threads>(
    threads: &R,
    far: UdpSocket,
) -> Result<thread::JoinHandle<usize>, Fail> {
    Ok(thread::spawn(threads, move || echo_twice(&far))?)
}

/// Whether the server at the port can be asked, and its reply is the next thing.
fn is_heard<W: World>(alloc: Global, world: &mut W, port: u16) -> Result<bool, NoMemory> {
    serve(world, 7, port)?;
    Ok(is_sent(world, 7, QUERY)? && is_next(alloc, world, 7, REPLY)?)
}

/// Whether the reply comes once more, and then nothing.
fn is_heard_again<W: World>(alloc: Global, world: &mut W) -> Result<bool, NoMemory> {
    Ok(is_next(alloc, world, 7, REPLY)? && is_silent(world)?)
}

/// Whether a reply is received as often as it was sent, which is twice.
fn hears_twice<R: Threads, W: World>(
    threads: &R,
    alloc: Global,
    far: UdpSocket,
    world: &mut W,
) -> Result<bool, Fail> {
    let port = port_of(&far)?;
    let child = twice_thread(threads, far)?;
    let came = is_heard(alloc, world, port)?;
    Ok(child.join(threads) == 2 && came && is_heard_again(alloc, world)?)
}

/// A socket whose queries have all got their replies is left alone until a wait is over: what else has come isn't lost.
#[test]
fn a_reply_that_comes_twice_is_received_twice(rt: HostRuntime) -> Result<(), Fail> {
    let far = far_socket(&rt, any_local())?;
    assert!(rt; hears_twice(&rt, rt.alloc(), far, &mut SockWorld::make(rt)?)?);
    Ok(())
}

/// Whether the next thing is that the server refuses.
fn is_refused<W: World>(world: &mut W, server: u32) -> Result<bool, NoMemory> {
    Ok(next(world)? == Got::Failed(server, 0))
}

/// How many of the next two things are this reply; the other one is a refusal of the server.
fn replies<W: World>(
    alloc: Global,
    world: &mut W,
    server: u32,
    reply: &[u8],
) -> Result<usize, NoMemory> {
    let wanted = Got::Datagram(server, Bytes::of(alloc, reply)?);
    let first = next(world)?;
    let second = next(world)?;
    Ok(replies_in(&wanted, &first, &second, server))
}

/// How many of these two are the wanted one, of which the other is a refusal of the server; none where it isn't.
fn replies_in(wanted: &Got, first: &Got, second: &Got, server: u32) -> usize {
    let refusal = Got::Failed(server, 0);
    match (*first == *wanted, *second == *wanted) {
        (true, true) => 2,
        (true, false) if *second == refusal => 1,
        (false, true) if *first == refusal => 1,
        _ => 0,
    }
}

/// Whether a query to the server at the port is refused, and another one can be sent then.
fn refuses<W: World>(world: &mut W, port: u16) -> Result<bool, NoMemory> {
    serve(world, 7, port)?;
    Ok(is_sent(world, 7, QUERY)? && is_refused(world, 7)? && is_sent(world, 7, QUERY)?)
}

/// Whether the next query is answered once.
fn answers_once<W: World>(alloc: Global, world: &mut W) -> Result<bool, NoMemory> {
    Ok(is_sent(world, 7, QUERY)? && replies(alloc, world, 7, REPLY)? == 1)
}

/// Whether the next query to this socket, which is opened behind a refusal, is answered, and is the only one that it gets.
fn reaches<R: Threads, W: World>(
    threads: &R,
    alloc: Global,
    far: UdpSocket,
    world: &mut W,
) -> Result<bool, Fail> {
    let child = echo_thread(threads, far, 1)?;
    let answered = answers_once(alloc, world)?;
    Ok(child.join(threads) == 1 && answered)
}

/// An address of 127.0.0.1 that was free just now.
fn free_address(rt: &HostRuntime) -> std::io::Result<SocketAddr> {
    far_socket(rt, any_local())?.local_addr()
}

/// Whether a refused query costs the next one nothing, which a socket at that address then answers; and a server that wasn't
/// told takes none.
fn loses_nothing<R: Threads, W: World>(
    threads: &R,
    rt: HostRuntime,
    world: &mut W,
    at: SocketAddr,
) -> Result<bool, Fail> {
    if !refuses(world, at.port())? {
        return Ok(false);
    }
    let far = far_socket(&rt, at)?;
    Ok(reaches(threads, rt.alloc(), far, world)? && !is_sent(world, 8, QUERY)?)
}

/// Nobody listens, so a query is refused. Then an echo opens that port: the next query reaches it, and behind its reply
/// or before it the refusal is told. A server that wasn't told takes no query. None of this is a failure of this machine.
#[test]
fn a_refusal_costs_no_query(rt: HostRuntime) -> Result<(), Fail> {
    let at = free_address(&rt)?;
    let mut world = SockWorld::make(rt)?;
    assert!(rt; loses_nothing(&rt, rt, &mut world, at)?);
    assert!(rt; world.local_failure().is_none());
    Ok(())
}

/// A tool with workers moves its World into a thread.
fn crosses_threads<W: World + Send>(_world: &W) {}

/// Whether four words of the generator are all the same.
fn repeats<W: World>(world: &mut W) -> Result<bool, NoMemory> {
    let first = world.word()?;
    for _ in 0..3 {
        if world.word()? != first {
            return Ok(false);
        }
    }
    Ok(true)
}

/// Whether a wait of 20 ms is woken, at that moment or later.
fn wakes<W: World>(world: &mut W) -> Result<bool, NoMemory> {
    let until = now(world)?.saturating_add(20);
    Ok(world.wait(until)? == Waited::Woken && now(world)? >= until)
}

/// Whether words and clock go on.
fn goes_on<W: World + Send>(world: &mut W) -> Result<bool, NoMemory> {
    crosses_threads(world);
    Ok(!repeats(world)? && wakes(world)?)
}

/// Four words of the generator are hardly all the same, and the clock goes on.
#[test]
fn words_and_time_go_on(rt: HostRuntime) -> Result<(), Fail> {
    assert!(rt; goes_on(&mut SockWorld::make(rt)?)?);
    Ok(())
}

/// Whether a query of so many bytes can be sent to the server at the port.
fn takes_long<W: World>(
    alloc: Global,
    world: &mut W,
    port: u16,
    len: usize,
) -> Result<bool, NoMemory> {
    serve(world, 7, port)?;
    let query = Vec::from_elem(alloc, 0u8, len)?;
    is_sent(world, 7, query.as_slice())
}

/// A query of more bytes than a datagram over IPv4 has can't be sent, which is this machine's doing (EMSGSIZE, 90).
#[test]
fn a_long_query_is_a_local_failure(rt: HostRuntime) -> Result<(), Fail> {
    let far = far_socket(&rt, any_local())?;
    let mut world = SockWorld::make(rt)?;
    assert!(rt; world.local_failure().is_none());
    assert!(rt; !takes_long(rt.alloc(), &mut world, port_of(&far)?, 65_508)?);
    assert!(rt; world.local_failure() == Some(LocalFailure::Other(90)));
    Ok(())
}
