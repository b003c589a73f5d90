//! A runtime whose system gives no random bytes.

use super::calls::{is_begun, is_sent, is_silent, now, serve, write};
use super::*;
use std::io;
use std::io::ErrorKind;
use std::net::{Net, TcpListener, TcpStream, UdpSocket};
use std::random::RandomSource;
use std::time::{Clock, Duration};

/// The runtime without random bytes.
#[derive(Drop)]
struct Unseeded(HostRuntime);

impl RandomSource for Unseeded {
    fn fill_bytes(&self, _buf: &mut [u8]) -> io::Result<()> {
        Err(io::Error::from(ErrorKind::Unsupported))
    }
}

impl Clock for Unseeded {
    fn monotonic(&self) -> io::Result<Duration> {
        self.0.monotonic()
    }

    fn since_1970(&self) -> io::Result<Duration> {
        self.0.since_1970()
    }
}

impl Net for Unseeded {
    type Stream = TcpStream;

    type Listener = TcpListener;

    fn bind(&self, addr: SocketAddr) -> io::Result<TcpListener> {
        self.0.bind(addr)
    }

    fn connect(&self, addr: SocketAddr) -> io::Result<TcpStream> {
        self.0.connect(addr)
    }
}

impl Alloc for Unseeded {
    type A = Global;

    fn alloc(&self) -> Global {
        self.0.alloc()
    }
}

/// Whether no query is sent, no link begun and none written to.
fn sends_nothing<W: World>(world: &mut W) -> Result<bool, NoMemory> {
    Ok(
        !is_sent(world, 0, b"a")?
            && !is_begun(world, 0, 1)?
            && write(world, 1, b"a")? == Wrote::Failed,
    )
}

/// Whether nothing comes, and no wait is woken.
fn waits_for_nothing<W: World>(world: &mut W) -> Result<bool, NoMemory> {
    let now = now(world)?;
    Ok(is_silent(world)? && world.wait(now)? == Waited::Failed)
}

/// Whether a network gives the word 0, and nothing is sent, begun or waited for, and nothing comes.
fn does_nothing<W: World>(world: &mut W) -> Result<bool, NoMemory> {
    serve(world, 0, 53)?;
    if world.word()? != 0 || !sends_nothing(world)? {
        return Ok(false);
    }
    world.close(1)?;
    waits_for_nothing(world)
}

#[test]
fn without_a_generator_all_fails(rt: HostRuntime) -> Result<(), Fail> {
    let mut world = SockWorld::make(Unseeded(rt))?;
    assert!(rt; does_nothing(&mut world)?);
    assert!(rt; world.local_failure() == Some(LocalFailure::Other(0)));
    Ok(())
}
