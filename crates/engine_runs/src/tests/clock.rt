//! The clock stands as long as something that has come isn't given.

use super::calls::{is_sent, now, receive, serve};
use super::servers::far_socket;
use super::*;
use std::io::ErrorKind;
use std::time::Duration;

/// Asks so many times, and has as many replies sent. Then nobody looks for 50 ms, by which all have come.
fn replied<W: World>(world: &mut W, far: &UdpSocket, count: usize) -> Result<(), Fail> {
    serve(world, 7, port_of(far)?)?;
    for _ in 0..count {
        reply_once(world, far)?;
    }
    rest(far)
}

/// Asks, and has a reply sent.
fn reply_once<W: World>(world: &mut W, far: &UdpSocket) -> Result<(), Fail> {
    let mut buffer = [0u8; 64];
    is_sent(world, 7, QUERY)?;
    let (_, from) = far.recv_from(&mut buffer)?;
    far.send_to(REPLY, from)?;
    Ok(())
}

/// Lets 50 ms go by, in which nothing comes to the socket.
fn rest(far: &UdpSocket) -> Result<(), Fail> {
    let mut buffer = [0u8; 64];
    far.set_read_timeout(Some(Duration::from_millis(50)))?;
    match far.recv_from(&mut buffer) {
        Err(error) if error.kind() == ErrorKind::WouldBlock => Ok(()),
        _ => Err("something came")?,
    }
}

/// Receives so many datagrams, before and behind each of which the clock shows the moment.
fn stands<W: World>(world: &mut W, moment: u64, count: usize) -> Result<bool, NoMemory> {
    for _ in 0..count {
        if now(world)? != moment || !is_datagram(world)? {
            return Ok(false);
        }
    }
    Ok(true)
}

/// Whether a datagram is at hand.
fn is_datagram<W: World>(world: &mut W) -> Result<bool, NoMemory> {
    Ok(match receive(world)? {
        Got::Datagram(_, _) => true,
        Got::Piece(_, _) | Got::Ended(_) | Got::Nothing | Got::Failed(_, _) => false,
    })
}

/// Whether a hundred replies come, behind which the clock goes on, and nothing else comes.
fn many_come<W: World>(world: &mut W, far: &UdpSocket) -> Result<bool, Fail> {
    let before = now(world)?;
    replied(world, far, 100)?;
    Ok(
        stands(world, before, 100)?
            && now(world)? >= before.saturating_add(50)
            && !is_datagram(world)?,
    )
}

/// A hundred replies come and wait for 50 ms. The clock stands where it was before until all are received, and goes on then.
#[test]
fn many_replies_come_before_time(rt: HostRuntime) -> Result<(), Fail> {
    let far = far_socket(&rt, any_local())?;
    assert!(rt; many_come(&mut SockWorld::make(rt)?, &far)?);
    Ok(())
}

/// Whether three replies come, at a moment behind which they were looked for.
fn few_come<W: World>(world: &mut W, far: &UdpSocket) -> Result<bool, Fail> {
    let before = now(world)?;
    replied(world, far, 3)?;
    let moment = now(world)?;
    Ok(moment >= before.saturating_add(50) && stands(world, moment, 3)?)
}

/// Three replies are few enough to be received before anything expires: the clock shows at once when they were looked for, and
/// stands there until they are received.
#[test]
fn few_replies_come_in_time(rt: HostRuntime) -> Result<(), Fail> {
    let far = far_socket(&rt, any_local())?;
    assert!(rt; few_come(&mut SockWorld::make(rt)?, &far)?);
    Ok(())
}
