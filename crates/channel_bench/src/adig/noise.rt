//! A server that answers nothing, while a datagram of another question comes each millisecond: each makes a turn.

ghost use Rattle.std.specs.Prelude.{All, IfOk};
ghost use Rattle.net_world.specs.Script.{MayCome};

use crate::failed::Failed;
use adig_tool::run;
use item_list::{Bytes, NoMemory};
use net_world::{Got, MemFiles, MemSink, ScriptWorld, Timed, Waited, World};
use std::alloc::Global;
use std::collections::BTreeMap;

/// The words of the run. Its one attempt waits for a minute.
const WORDS: &[&str] = &[
    "--server",
    "192.0.2.53",
    "--timeout",
    "60000",
    "--tries",
    "1",
    "example.com",
];

/// A datagram that answers no query (RFC 1035, section 4.1): its header alone.
const STRAY: &[u8] = b"\x56\x78\x81\x80\0\0\0\0\0\0\0\0";

/// A network on which so many of these datagrams come, one each millisecond.
fn noisy(alloc: Global, datagrams: u64) -> Result<ScriptWorld, Failed> {
    let mut words = Vec::new(alloc);
    words.push(0x1234)?;
    Ok(ScriptWorld::make(words, strays(alloc, datagrams)?, Vec::new(alloc)))
}

/// These datagrams.
fn strays(alloc: Global, datagrams: u64) -> Result<Vec<Timed>, Failed>
    ensures { IfOk result (λ items. All (λ item. MayCome item.got) items.items) }
{
    let mut items = Vec::new(alloc);
    for at in 0..datagrams {
        items.push(Timed {
            from: at,
            got: Got::Datagram(0, Bytes::of(alloc, STRAY)?),
        })?;
    }
    Ok(items)
}

/// What this task comes to in so many turns: an exit status, and how many calls of the network it made. It is a run of so many
/// turns, and not one more; or the calls of the network that such a run makes, and nothing else, with status 0.
pub fn ended(alloc: Global, task: &str, turns: u64) -> Result<(u8, usize), Failed> {
    let mut world = noisy(alloc, turns)?;
    let status = status_over(&mut world, alloc, task, turns);
    Ok((status?, world.log().calls().len()))
}

/// The exit status of this task.
fn status_over(
    world: &mut ScriptWorld,
    alloc: Global,
    task: &str,
    turns: u64,
) -> Result<u8, Failed> {
    if task == "run" {
        return Ok(status_of_run(world, alloc, turns));
    }
    call_all(world, turns)?;
    Ok(0)
}

/// That of a run of so many turns.
fn status_of_run(world: &mut ScriptWorld, alloc: Global, turns: u64) -> u8 {
    let mut files = MemFiles::make(BTreeMap::new(alloc), Vec::new(alloc));
    let mut sink = MemSink::make(Vec::new(alloc));
    run(alloc, WORDS, &mut files, world, &mut sink, turns).status
}

/// Calls the network as a turn does, so many times, or until a wait fails.
fn call_all(world: &mut ScriptWorld, turns: u64) -> Result<(), NoMemory> {
    for _ in 0..turns {
        if let Waited::Failed = call_once(world)? {
            break;
        }
    }
    Ok(())
}

/// Calls the network as one turn does, and answers how its wait ended.
fn call_once(world: &mut ScriptWorld) -> Result<Waited, NoMemory> {
    let _reading = World::now(world)?;
    let _came = World::receive(world)?;
    let _nothing = World::receive(world)?;
    let _word = World::word(world)?;
    World::wait(world, 60_000)
}
