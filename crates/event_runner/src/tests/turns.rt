//! Turns and pauses of a runner.

ghost use Rattle.std.specs.Prelude.{All, IfOk};
ghost use Rattle.net_world.specs.Script.{MayCome};

use super::closed_desk::ClosedDesk;
use crate::{Paused, Runner, Turned};
use item_list::{Bytes, NoMemory};
use net_addr::{Addr, ServerAddr};
use net_world::{Got, ScriptWorld, Timed, WorldCall};
use resolv_options::Options;
use std::alloc::Global;
use std::test::Fail;

/// The server of the default options.
const SERVER: ServerAddr = ServerAddr {
    address: Addr::V4(0x7f00_0001),
    port: 53,
};

/// A datagram of server 1 with this byte, which is there from the beginning.
fn datagram(alloc: Global, byte: u8) -> Result<Timed, NoMemory>
    ensures { IfOk result (λ item. MayCome item.got) }
{
    Ok(Timed {
        from: 0,
        got: Got::Datagram(1, Bytes::of(alloc, &[byte])?),
    })
}

/// A runner between a desk and a network.
#[derive(Drop)]
struct Scene {
    desk: ClosedDesk,
    world: ScriptWorld,
    runner: Runner,
}

/// A runner for the default options.
fn runner(alloc: Global, world: &mut ScriptWorld) -> Result<Runner, NoMemory> {
    let options = Options::plain(alloc)?;
    Runner::make(alloc, world, &options)
}

/// A runner for the default options, over this network.
fn scene_over(alloc: Global, mut world: ScriptWorld) -> Result<Scene, NoMemory> {
    let runner = runner(alloc, &mut world)?;
    let desk = ClosedDesk::make(alloc)?;
    Ok(Scene {
        desk,
        world,
        runner,
    })
}

/// A runner for the default options, over a network with these items.
fn given(alloc: Global, items: Vec<Timed>) -> Result<Scene, NoMemory>
    requires { All (λ item. MayCome item.got) items.items }
{
    scene_over(
        alloc,
        ScriptWorld::make(Vec::new(alloc), items, Vec::new(alloc)),
    )
}

/// One turn.
fn turn(scene: &mut Scene) -> Result<Turned, NoMemory> {
    scene.runner.turn(&mut scene.desk, &mut scene.world)
}

/// This scene behind a turn, and what the turn did.
fn turned(mut scene: Scene) -> Result<(Scene, Turned), NoMemory> {
    let turned = turn(&mut scene)?;
    Ok((scene, turned))
}

/// A datagram, and a piece and an end of a link that isn't held.
fn three_items(alloc: Global) -> Result<Vec<Timed>, NoMemory>
    ensures { IfOk result (λ items. All (λ item. MayCome item.got) items.items) }
{
    let mut items = Vec::new(alloc);
    items.push(datagram(alloc, 5)?)?;
    items.push(Timed {
        from: 0,
        got: Got::Piece(7, Bytes::of(alloc, &[0, 1, 9])?),
    })?;
    items.push(Timed {
        from: 0,
        got: Got::Ended(7),
    })?;
    Ok(items)
}

/// Whether these are the calls in which a turn receives those items.
fn receive_three(calls: &[WorldCall]) -> bool {
    match calls {
        [
            WorldCall::Receive {
                got: Got::Datagram(1, datagram),
            },
            WorldCall::Receive {
                got: Got::Piece(7, piece),
            },
            WorldCall::Receive { got: Got::Ended(7) },
            WorldCall::Receive { got: Got::Nothing },
        ] => { datagram.as_slice() == [5].as_slice() && piece.as_slice() == [0, 1, 9].as_slice() }
        _ => false,
    }
}

/// Whether these are the calls of a runner that is made and makes a turn, in which it receives those items.
fn make_a_turn(calls: &[WorldCall]) -> bool {
    match calls {
        [
            WorldCall::Serve { server: 0, address },
            WorldCall::Now { reading: 0 },
            received @ ..,
            WorldCall::Word { word: 0 },
        ] => *address == SERVER && receive_three(received),
        _ => false,
    }
}

/// A runner tells its servers; a turn reads the clock, receives until nothing is there, and draws one word for a start.
#[test]
fn a_turn_goes_part_by_part(rt: HostRuntime) -> Result<(), Fail> {
    let (scene, turned) = turned(given(rt.alloc(), three_items(rt.alloc())?)?)?;
    assert!(rt;
        turned
            == Turned {
                reading: 0,
                received: 3,
                expired: 0,
                started: 0
            }
    );
    assert!(rt; scene.desk.count() == 1 && scene.desk.arrived(1, 1, 0, &[5]));
    assert!(rt; make_a_turn(scene.world.log().calls()));
    Ok(())
}

/// So many datagrams.
fn many(alloc: Global, count: u8) -> Result<Vec<Timed>, NoMemory>
    ensures { IfOk result (λ items. All (λ item. MayCome item.got) items.items) }
{
    let mut items = Vec::new(alloc);
    for byte in 0..count {
        items.push(datagram(alloc, byte)?)?;
    }
    Ok(items)
}

/// How many of 66 datagrams two turns receive, and how much happened at the desk.
fn received_by_two(alloc: Global) -> Result<(u64, u64, usize), NoMemory> {
    let mut scene = given(alloc, many(alloc, 66)?)?;
    let first = turn(&mut scene)?.received;
    let second = turn(&mut scene)?.received;
    Ok((first, second, scene.desk.count()))
}

/// A turn receives 64 items at most, and the next one goes on.
#[test]
fn a_turn_receives_64_items_at_most(rt: HostRuntime) -> Result<(), Fail> {
    assert!(rt; received_by_two(rt.alloc())? == (64, 2, 66));
    Ok(())
}

/// A network whose first receive fails, when a runner is made there.
fn failing(alloc: Global) -> Result<Scene, NoMemory> {
    let fails = [2].to_vec(alloc)?;
    scene_over(
        alloc,
        ScriptWorld::make(Vec::new(alloc), Vec::new(alloc), fails),
    )
}

/// A receive that fails is a fault of its server's link.
#[test]
fn a_failed_receive_is_a_fault(rt: HostRuntime) -> Result<(), Fail> {
    let (scene, turned) = turned(failing(rt.alloc())?)?;
    assert!(rt; turned.received == 1);
    assert!(rt; scene.desk.count() == 1 && scene.desk.failed(1, 0, 0));
    Ok(())
}

/// What a pause of at most 100 milliseconds answers, and how many calls the network has had behind it.
fn paused(alloc: Global) -> Result<(Paused, usize), NoMemory> {
    let mut scene = given(alloc, Vec::new(alloc))?;
    let Scene {
        desk,
        world,
        runner,
    } = &mut scene;
    let paused = runner.pause(desk, world, 100)?;
    Ok((paused, scene.world.log().calls().len()))
}

/// Where nothing is pending, a pause makes no call: the network was told its server alone.
#[test]
fn a_pause_is_skipped_where_nothing_is_pending(rt: HostRuntime) -> Result<(), Fail> {
    assert!(rt; paused(rt.alloc())? == (Paused::Skipped, 1));
    Ok(())
}
