//! How a runner begins: it tells the network the servers of its channel.

ghost use Rattle.std.specs.Prelude.{◌≡◌, ◌≤◌, length};
ghost use Rattle.event_runner.specs.Running.{Opens};

use item_list::NoMemory;
use net_addr::ServerAddr;
use net_world::World;
use std::alloc::Global;

/// Tells the network these servers, each by its key, from 0. Answers their keys.
pub fn tell_all<W: World>(
    alloc: Global,
    world: &mut W,
    servers: &[ServerAddr],
) -> Result<Vec<u32>, NoMemory>
    requires { length servers.now ≤ 8 }
    ensures opens { Opens (λ keys. keys.items) servers.now result (W.log world.old) (W.log world.new) }
    ensures waits { W.wait_faults world.new ≡ W.wait_faults world.old }
    ensures faults { W.faults world.old ≤ W.faults world.new }
    ensures clock { W.reading world.new ≡ W.reading world.old }
    ensures origin { W.origin world.new ≡ W.origin world.old }
{
    let mut told = Vec::new(alloc);
    for (key, address) in servers.iter().enumerate() {
        world.serve(key as u32, address)?;
        told.push(key as u32)?;
    }
    Ok(told)
}
