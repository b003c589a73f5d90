//! Links that are held: what is written, what is left, and which are closed.

use super::closed_desk::ClosedDesk;
use crate::asking::ask;
use crate::closing::close_idle;
use crate::kept::Kept;
use crate::link::HeldLink;
use crate::writing::write_all;
use item_list::NoMemory;
use net_addr::{Addr, ServerAddr};
use net_world::{ScriptWorld, Sent, WorldCall, Wrote};
use std::alloc::Global;
use std::test::Fail;

const ADDRESS: ServerAddr = ServerAddr {
    address: Addr::V4(0xc0000235),
    port: 53,
};

/// A desk, a network, and the links that are held between them.
#[derive(Drop)]
struct Scene {
    desk: ClosedDesk,
    world: ScriptWorld,
    kept: Kept,
}

/// A network that gives nothing, on which the calls of these numbers fail.
fn network(alloc: Global, fails: &[u64]) -> Result<ScriptWorld, NoMemory> {
    let fails = fails.to_vec(alloc)?;
    Ok(ScriptWorld::make(Vec::new(alloc), Vec::new(alloc), fails))
}

/// A scene with these links, where no server is told, and the calls of these numbers fail.
fn scene_of(alloc: Global, links: Vec<HeldLink>, fails: &[u64]) -> Result<Scene, NoMemory> {
    let world = network(alloc, fails)?;
    let desk = ClosedDesk::make(alloc)?;
    let kept = Kept {
        alloc,
        links,
        told: Vec::new(alloc),
        mix: false,
    };
    Ok(Scene { desk, world, kept })
}

/// Asks server 4 this over a link.
fn asks(scene: &mut Scene, link: u64, message: &[u8]) -> Result<(), NoMemory> {
    let Scene { desk, world, kept } = scene;
    ask(desk, world, kept, 4, &ADDRESS, link, message, 0)
}

/// A scene in which these messages were asked, each over its link.
fn asked(alloc: Global, fails: &[u64], queries: &[(u64, &[u8])]) -> Result<Scene, NoMemory> {
    let mut scene = scene_of(alloc, Vec::new(alloc), fails)?;
    for (link, message) in queries {
        asks(&mut scene, *link, message)?;
    }
    Ok(scene)
}

/// Whether these are the calls for a datagram and two queries over one link.
fn ask_three(calls: &[WorldCall]) -> bool {
    match calls {
        [
            WorldCall::Serve { server: 4, address },
            WorldCall::Send {
                server: 4,
                bytes,
                sent: Sent::Sent,
            },
            WorldCall::Connect {
                server: 4,
                link: 3,
                sent: Sent::Sent,
            },
        ] => *address == ADDRESS && bytes.as_slice() == [1, 2].as_slice(),
        _ => false,
    }
}

/// Whether the first link has these bytes to write, and there is no other.
fn has_alone(kept: &Kept, bytes: &[u8]) -> bool {
    match kept.links.get(0) {
        Some(link) => kept.links.len() == 1 && link.unwritten() == bytes,
        None => false,
    }
}

/// A server is told once; a query over UDP is sent at once, and those over a link wait in their frames.
#[test]
fn a_server_is_told_before_its_first_query(rt: HostRuntime) -> Result<(), Fail> {
    let queries: [(u64, &[u8]); 3] = [(0, &[1, 2]), (3, &[5]), (3, &[6, 7])];
    let scene = asked(rt.alloc(), &[], &queries)?;
    assert!(rt; scene.desk.count() == 0);
    assert!(rt; has_alone(&scene.kept, &[0, 1, 5, 0, 2, 6, 7]));
    assert!(rt; ask_three(scene.world.log().calls()));
    Ok(())
}

/// A send that fails and a link that can't be begun fail their attempts, and no link is held.
#[test]
fn a_failed_query_is_a_fault(rt: HostRuntime) -> Result<(), Fail> {
    let queries: [(u64, &[u8]); 2] = [(0, &[1, 2]), (3, &[5])];
    let Scene { desk, kept, .. } = asked(rt.alloc(), &[1, 2], &queries)?;
    assert!(rt; kept.links.is_empty());
    assert!(rt; desk.count() == 2 && desk.failed(1, 4, 0) && desk.failed(2, 4, 3));
    Ok(())
}

/// A link with a byte to be written.
fn link_of(alloc: Global, number: u64, server: u32) -> Result<HeldLink, NoMemory> {
    let mut link = HeldLink::new(alloc, number, server);
    link.queue(&[9])?;
    Ok(link)
}

/// Links 11, 12 and 13 to servers 1, 2 and 3, each with a byte to be written.
fn three(alloc: Global) -> Result<Vec<HeldLink>, NoMemory> {
    let mut links = Vec::new(alloc);
    for server in 1..4 {
        links.push(link_of(alloc, u64::from(10 + server), server)?)?;
    }
    Ok(links)
}

/// Whether a call is a write of that byte to this link, with this outcome.
fn writes(call: &WorldCall, to: u64, outcome: Wrote) -> bool {
    match call {
        WorldCall::Write { link, bytes, wrote } => {
            *link == to && bytes.as_slice() == [0, 1, 9].as_slice() && *wrote == outcome
        }
        _ => false,
    }
}

/// Whether these are the calls by which the three links are written to, where the second write fails.
fn write_three(calls: &[WorldCall]) -> bool {
    match calls {
        [first, second, WorldCall::Close { link: 12 }, third] => {
            writes(first, 11, Wrote::Count(3))
                && writes(second, 12, Wrote::Failed)
                && writes(third, 13, Wrote::Count(3))
        }
        _ => false,
    }
}

/// Whether nothing is left to be written to any link, and there are so many.
fn has_written(kept: &Kept, count: usize) -> bool {
    kept.links.len() == count && kept.links.iter().all(|link| link.unwritten().is_empty())
}

/// Writes to the three links, of which the second write fails.
fn written(alloc: Global) -> Result<Scene, NoMemory> {
    let mut scene = scene_of(alloc, three(alloc)?, &[1])?;
    let Scene { desk, world, kept } = &mut scene;
    write_all(desk, world, kept, 0)?;
    Ok(scene)
}

/// A link on which a write fails is closed, and its attempts fail; the others are written to.
#[test]
fn a_failed_write_closes_its_link_alone(rt: HostRuntime) -> Result<(), Fail> {
    let scene = written(rt.alloc())?;
    assert!(rt; has_written(&scene.kept, 2));
    assert!(rt; scene.desk.count() == 1 && scene.desk.failed(1, 2, 12));
    assert!(rt; write_three(scene.world.log().calls()));
    Ok(())
}

/// Bytes that were taken are written no more, and a later message stands behind those that are left.
#[test]
fn a_write_goes_on_behind_what_was_taken(rt: HostRuntime) -> Result<(), Fail> {
    let mut link = link_of(rt.alloc(), 1, 1)?;
    link.wrote(link.unwritten().len().min(2));
    assert!(rt; link.unwritten() == [9].as_slice());
    link.queue(&[4])?;
    assert!(rt; link.unwritten() == [9, 0, 1, 4].as_slice());
    Ok(())
}

/// Whether these are the closes of the three links.
fn close_three(calls: &[WorldCall]) -> bool {
    matches!(
        calls,
        [
            WorldCall::Close { link: 11 },
            WorldCall::Close { link: 12 },
            WorldCall::Close { link: 13 },
        ]
    )
}

/// Closes those of the three links on which nothing is in flight.
fn closed(alloc: Global) -> Result<Scene, NoMemory> {
    let mut scene = scene_of(alloc, three(alloc)?, &[])?;
    let Scene { desk, world, kept } = &mut scene;
    close_idle(desk, world, kept)?;
    Ok(scene)
}

/// Where nothing is in flight, each link is closed, the first one first.
#[test]
fn links_without_attempts_are_closed(rt: HostRuntime) -> Result<(), Fail> {
    let scene = closed(rt.alloc())?;
    assert!(rt; scene.kept.links.is_empty() && scene.desk.count() == 0);
    assert!(rt; close_three(scene.world.log().calls()));
    Ok(())
}
