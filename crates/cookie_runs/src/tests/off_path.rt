//! Forged replies from the server's own address and port, with the right identifier and question: an attacker who isn't on the
//! path may guess these, but not the client cookie (RFC 7873, section 3).

mod flood;
mod messages;

use cookie_world::CookieWorld;
use flood::{Flood, NOTHING, Tally, flooded, taught};
use net_addr::{Addr, ServerAddr};
use net_world::World;
use sock_engine::SockWorld;
use std::alloc::Global;
use std::net::{Ipv4Addr, SocketAddr, UdpSocket};
use std::test::Fail;
use std::time::Duration;

/// How many queries are asked behind the first, and how many forged replies each of them has, in all 10,000. A socket brings no
/// more than 255 replies of a query.
const QUERIES: u16 = 50;

const FORGED_EACH: u16 = 200;

/// The number of the server.
const SERVER: u32 = 7;

/// The socket of a server that the test plays, on a port that was free just now.
fn server_socket(rt: &HostRuntime) -> Result<UdpSocket, Fail> {
    let far = UdpSocket::bind(rt, SocketAddr::from((Ipv4Addr::LOCALHOST, 0)))?;
    far.set_read_timeout(Some(Duration::from_secs(10)))?;
    Ok(far)
}

/// Tells the network where that server is.
fn serve<W: World>(world: &mut W, far: &UdpSocket) -> Result<(), Fail> {
    let address = ServerAddr {
        address: Addr::V4(0x7f00_0001),
        port: far.local_addr()?.port(),
    };
    world.serve(SERVER, &address)?;
    Ok(())
}

/// What comes of the 10,000 through this network, behind a first good reply.
fn tally_of<W: World>(alloc: Global, world: &mut W, far: &UdpSocket) -> Result<Tally, Fail> {
    serve(world, far)?;
    let flood = Flood {
        far,
        forged: FORGED_EACH,
    };
    let mut tally = NOTHING;
    if !taught(alloc, world, &flood)? {
        Err("the first reply wasn't taken")?;
    }
    for id in 1..=QUERIES {
        flooded(alloc, world, &flood, id, &mut tally)?;
    }
    Ok(tally)
}

/// What comes of them with cookies.
fn tally_with_cookies(rt: HostRuntime) -> Result<Tally, Fail> {
    let far = server_socket(&rt)?;
    let mut world = CookieWorld::make(rt.alloc(), SockWorld::make(rt)?);
    tally_of(rt.alloc(), &mut world, &far)
}

/// What comes of them without.
fn tally_without(rt: HostRuntime) -> Result<Tally, Fail> {
    let far = server_socket(&rt)?;
    let mut world = SockWorld::make(rt)?;
    tally_of(rt.alloc(), &mut world, &far)
}

/// With cookies each query has its good reply, and each of the 10,000 forged ones is dropped: it comes without a byte.
#[test]
fn forged_replies_are_dropped(rt: HostRuntime) -> Result<(), Fail> {
    let tally = tally_with_cookies(rt)?;
    assert!(rt; tally.good == 50);
    assert!(rt; tally.forged == 0);
    assert!(rt; tally.dropped == 10_000);
    Ok(())
}

/// Without cookies the same network brings each forged reply.
#[test]
fn without_cookies_forged_replies_come(rt: HostRuntime) -> Result<(), Fail> {
    let tally = tally_without(rt)?;
    assert!(rt; tally.good == 50);
    assert!(rt; tally.forged == 10_000);
    assert!(rt; tally.dropped == 0);
    Ok(())
}
