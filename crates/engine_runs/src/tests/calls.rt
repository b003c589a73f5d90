//! Calls of a network, without what they promise: a check is long where many of their clauses are known.

use super::*;

/// Tells that the server is at this port of 127.0.0.1.
pub fn serve<W: World>(world: &mut W, server: u32, port: u16) -> Result<(), NoMemory> {
    world.serve(server, &local(port))
}

/// The clock's reading.
pub fn now<W: World>(world: &mut W) -> Result<u64, NoMemory> {
    world.now()
}

/// Whether a query could be sent.
pub fn is_sent<W: World>(world: &mut W, server: u32, query: &[u8]) -> Result<bool, NoMemory> {
    Ok(world.send(server, query)? == Sent::Sent)
}

/// Whether a link to the server could be begun.
pub fn is_begun<W: World>(world: &mut W, server: u32, link: u64) -> Result<bool, NoMemory> {
    Ok(world.connect(server, link)? == Sent::Sent)
}

/// What a link takes of these bytes.
pub fn write<W: World>(world: &mut W, link: u64, bytes: &[u8]) -> Result<Wrote, NoMemory> {
    world.write(link, bytes)
}

/// What is at hand.
pub fn receive<W: World>(world: &mut W) -> Result<Got, NoMemory> {
    world.receive()
}

/// Waits for so many milliseconds, or until something comes.
pub fn pause<W: World>(world: &mut W, milliseconds: u64) -> Result<(), NoMemory> {
    let now = now(world)?;
    world.wait(now.saturating_add(milliseconds))?;
    Ok(())
}

/// What comes next, within some seconds.
pub fn next<W: World>(world: &mut W) -> Result<Got, NoMemory> {
    for _ in 0..100 {
        let got = receive(world)?;
        if got != Got::Nothing {
            return Ok(got);
        }
        pause(world, 100)?;
    }
    Ok(Got::Nothing)
}

/// Whether the next thing is this datagram of the server.
pub fn is_next<W: World>(
    alloc: Global,
    world: &mut W,
    server: u32,
    bytes: &[u8],
) -> Result<bool, NoMemory> {
    Ok(next(world)? == Got::Datagram(server, Bytes::of(alloc, bytes)?))
}

/// Whether nothing is at hand.
pub fn is_silent<W: World>(world: &mut W) -> Result<bool, NoMemory> {
    Ok(receive(world)? == Got::Nothing)
}

/// Whether a wait of 20 ms brings nothing.
pub fn stays_silent<W: World>(world: &mut W) -> Result<bool, NoMemory> {
    pause(world, 20)?;
    is_silent(world)
}
