//! Links over TCP.

use super::calls::{is_begun, is_silent, next, pause, serve, write};
use super::*;
use std::io::{Read, Write};
use std::net::{TcpListener, TcpStream};
use std::thread;
use std::thread::Threads;

/// Sends the bytes of one connection back, so many of them, and ends it.
fn echo_once(listener: &TcpListener, len: usize) -> bool {
    let mut buffer = [0u8; 64];
    let Ok((mut stream, _)) = listener.accept() else {
        return false;
    };
    let Some(part) = buffer.get_mut(..len) else {
        return false;
    };
    stream.read_exact(part).is_ok() && stream.write_all(part).is_ok()
}

/// Whether the link takes all bytes, within some seconds.
fn takes_all<W: World>(world: &mut W, link: u64, bytes: &[u8]) -> Result<bool, NoMemory> {
    let mut done = 0usize;
    for _ in 0..100 {
        let Some(rest) = bytes.get(done..) else {
            return Ok(false);
        };
        if rest.is_empty() {
            return Ok(true);
        }
        match write(world, link, rest)? {
            Wrote::Count(0) => pause(world, 100)?,
            Wrote::Count(count) => done = done.saturating_add(count),
            Wrote::Failed => return Ok(false),
        }
    }
    Ok(false)
}

/// The bytes that come on a link up to its end, or none where something else comes.
fn heard<W: World>(alloc: Global, world: &mut W, link: u64) -> Result<Vec<u8>, NoMemory> {
    let mut came = Vec::new(alloc);
    for _ in 0..10 {
        match next(world)? {
            Got::Piece(number, bytes) if number == link => {
                came.extend_from_slice(bytes.as_slice())?;
            }
            Got::Ended(number) if number == link => return Ok(came),
            _ => return Ok(Vec::new(alloc)),
        }
    }
    Ok(Vec::new(alloc))
}

/// Whether nothing comes, and the link takes nothing.
fn is_gone<W: World>(world: &mut W, link: u64) -> Result<bool, NoMemory> {
    Ok(is_silent(world)? && write(world, link, b"a")? == Wrote::Failed)
}

/// Whether the link is gone once it is closed.
fn is_closed<W: World>(world: &mut W, link: u64) -> Result<bool, NoMemory> {
    world.close(link)?;
    is_gone(world, link)
}

/// Whether a link to a server that nobody is at fails, at once or behind its beginning.
fn fails<W: World>(world: &mut W, server: u32, link: u64) -> Result<bool, NoMemory> {
    Ok(!is_begun(world, server, link)? || next(world)? == Got::Failed(server, link))
}

/// Whether these bytes, on link 2 of the server at the port, which has number 1, come back, and the link is ended.
fn is_echo<W: World>(
    alloc: Global,
    world: &mut W,
    port: u16,
    bytes: &[u8],
) -> Result<bool, NoMemory> {
    serve(world, 1, port)?;
    if !is_begun(world, 1, 2)? || !takes_all(world, 2, bytes)? {
        return Ok(false);
    }
    Ok(heard(alloc, world, 2)?.as_slice() == bytes)
}

/// Whether the link is gone then, one of the same server fails, and one of no server can't be begun.
fn ends<W: World>(world: &mut W) -> Result<bool, NoMemory> {
    Ok(is_gone(world, 2)? && fails(world, 1, 3)? && !is_begun(world, 9, 4)?)
}

/// A thread that sends five bytes of one connection back.
fn echo_thread<R: Threads>(
    threads: &R,
    listener: TcpListener,
) -> Result<thread::JoinHandle<bool>, Fail> {
    Ok(thread::spawn(threads, move || echo_once(&listener, 5))?)
}

/// Whether a network's link echoes and ends. Another one is begun where nobody listens any more.
fn is_echoed<R: Threads, W: World>(
    threads: &R,
    alloc: Global,
    listener: TcpListener,
    world: &mut W,
) -> Result<bool, Fail> {
    let port = listener.local_addr()?.port();
    let child = echo_thread(threads, listener)?;
    let came = is_echo(alloc, world, port, b"query")?;
    Ok(child.join(threads) && came && ends(world)?)
}

#[test]
fn a_link_echoes_and_ends(rt: HostRuntime) -> Result<(), Fail> {
    let listener = TcpListener::bind(&rt, any_local())?;
    assert!(rt; is_echoed(&rt, rt.alloc(), listener, &mut SockWorld::make(rt)?)?);
    Ok(())
}

/// Begins a link to the server, and accepts it.
fn accepted<W: World>(
    world: &mut W,
    listener: &TcpListener,
    server: u32,
    link: u64,
) -> Result<TcpStream, Fail> {
    if !is_begun(world, server, link)? {
        Err("no link was begun")?;
    }
    let (stream, _) = listener.accept()?;
    Ok(stream)
}

/// Whether the next thing is this piece of the link, which the other side sends.
fn is_piece<W: World>(
    alloc: Global,
    world: &mut W,
    link: u64,
    stream: &mut TcpStream,
    bytes: &[u8],
) -> Result<bool, Fail> {
    stream.write_all(bytes)?;
    Ok(next(world)? == Got::Piece(link, Bytes::of(alloc, bytes)?))
}

/// Whether of two open links the later one, which brings bytes first, is heard and gone once it is closed, and then the other
/// one is heard.
fn are_heard<W: World>(
    alloc: Global,
    world: &mut W,
    first: &mut TcpStream,
    second: &mut TcpStream,
) -> Result<bool, Fail> {
    Ok(
        is_piece(alloc, world, 3, second, b"two")?
            && is_closed(world, 3)?
            && is_piece(alloc, world, 2, first, b"one")?,
    )
}

/// The same of links that are opened to this listener.
fn hears_links<W: World>(
    alloc: Global,
    world: &mut W,
    listener: &TcpListener,
) -> Result<bool, Fail> {
    serve(world, 1, listener.local_addr()?.port())?;
    let mut first = accepted(world, listener, 1, 2)?;
    let mut second = accepted(world, listener, 1, 3)?;
    are_heard(alloc, world, &mut first, &mut second)
}

/// Two links are open at once, and the later one brings bytes first. It is closed, and then the other one brings some.
#[test]
fn two_links_are_heard(rt: HostRuntime) -> Result<(), Fail> {
    let listener = TcpListener::bind(&rt, any_local())?;
    assert!(rt; hears_links(rt.alloc(), &mut SockWorld::make(rt)?, &listener)?);
    Ok(())
}
