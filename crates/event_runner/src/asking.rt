//! How the query of an attempt goes out.

ghost use Rattle.std.specs.Prelude.{◌≡◌, ◌≢◌, ◌≤◌, ℕ, List, Ok, Option, map};
ghost use Rattle.channel_model.specs.KeptLinks.{link_of_row};
ghost use Rattle.channel_model.specs.Links.{held_link};
ghost use Rattle.net_world.specs.declared.log.WorldCall.{WorldCall};
ghost use Rattle.channel_model.specs.Known.{Calls, Known};
ghost use Rattle.channel_model.specs.Meanings.{Starts};
ghost use Rattle.channel_model.specs.declared.answers.Begun.TheVariants.{Started};
ghost use Rattle.net_addr.specs.declared.addr.ServerAddr.{ServerAddr};
ghost use Rattle.event_runner.specs.declared.kept.Kept.{Kept};
ghost use Rattle.event_runner.specs.State.{state_of, HasTold, State, Tells};
ghost use Rattle.event_runner.specs.Goes.{Ends};
ghost use Rattle.event_runner.specs.Parts.{Asks, CutAsking};

use crate::kept::{Kept, find_link};
use crate::link::HeldLink;
use channel_model::Desk;
use item_list::NoMemory;
use net_addr::ServerAddr;
use net_world::{Sent, World};

/// The link of datagrams.
const UDP: u64 = 0;

/// Asks the query of an attempt that was begun: as a datagram, or over its link. A server that wasn't told yet is told first.
pub fn ask<D: Desk, W: World>(
    desk: &mut D,
    world: &mut W,
    kept: &mut Kept,
    server: u32,
    address: &ServerAddr,
    link: u64,
    message: &[u8],
    reading: u64,
) -> Result<(), NoMemory>
    ensures goes { (before : Known) (word bits number leg id : ℕ)
        → Calls (Starts word bits reading
        (Ok (Started number leg server address.now link id message.now))) 0 before
        (D.known desk.old)
        → Ends (λ done. Asks reading word bits) (CutAsking reading word bits) result
        (state_of before kept.old (W.log world.old))
        (state_of (D.known desk.new) kept.new (W.log world.new)) }
    ensures waits { W.wait_faults world.new ≡ W.wait_faults world.old }
    ensures faults { W.faults world.old ≤ W.faults world.new }
    ensures origin { W.origin world.new ≡ W.origin world.old }
{
    tell(world, kept, server, address)?;
    if link == UDP {
        return send(desk, world, server, message, reading);
    }
    match find_link(&kept.links, link) {
        Some(index) => {
            let held = &mut kept.links[index];
            held.queue(message)
        }
        None => connect(desk, world, kept, server, link, message, reading),
    }
}

/// Tells the network a server, unless it was told.
fn tell<W: World>(
    world: &mut W,
    kept: &mut Kept,
    server: u32,
    address: &ServerAddr,
) -> Result<(), NoMemory>
    ensures tells { (known : Known)
        → Tells server address.now result (state_of known kept.old (W.log world.old))
        (state_of known kept.new (W.log world.new)) }
    ensures waits { W.wait_faults world.new ≡ W.wait_faults world.old }
    ensures faults { W.faults world.old ≤ W.faults world.new }
    ensures origin { W.origin world.new ≡ W.origin world.old }
{
    if kept.told.contains(&server) {
        return Ok(());
    }
    world.serve(server, address)?;
    kept.told.push(server)?;
    Ok(())
}

/// Sends a query as a datagram. A failure fails the attempt.
fn send<D: Desk, W: World>(
    desk: &mut D,
    world: &mut W,
    server: u32,
    message: &[u8],
    reading: u64,
) -> Result<(), NoMemory>
    ensures goes { (before : Known) (was now : Kept) (log : Option (List WorldCall))
        (word bits number leg id : ℕ) (address : ServerAddr)
        → HasTold server address (state_of before was log) (state_of before now (W.log world.old))
        → Calls (Starts word bits reading
        (Ok (Started number leg server address 0 id message.now))) 0 before (D.known desk.old)
        → Ends (λ done. Asks reading word bits) (CutAsking reading word bits) result
        (state_of before was log) (state_of (D.known desk.new) now (W.log world.new)) }
    ensures waits { W.wait_faults world.new ≡ W.wait_faults world.old }
    ensures faults { W.faults world.old ≤ W.faults world.new }
    ensures origin { W.origin world.new ≡ W.origin world.old }
{
    match world.send(server, message)? {
        Sent::Sent => {}
        Sent::Failed => {
            desk.fault(server, UDP, reading)?;
        }
    }
    Ok(())
}

/// Begins a link and queues a query on it. A failure fails the attempt.
fn connect<D: Desk, W: World>(
    desk: &mut D,
    world: &mut W,
    kept: &mut Kept,
    server: u32,
    link: u64,
    message: &[u8],
    reading: u64,
) -> Result<(), NoMemory>
    ensures goes { (before : Known) (was : Kept) (log : Option (List WorldCall))
        (word bits number leg id : ℕ) (address : ServerAddr)
        → HasTold server address (state_of before was log)
        (state_of before kept.old (W.log world.old)) → link ≢ 0
        → held_link link (map link_of_row kept.old.links.items) ≡ None
        → Calls (Starts word bits reading
        (Ok (Started number leg server address link id message.now))) 0 before
        (D.known desk.old)
        → Ends (λ done. Asks reading word bits) (CutAsking reading word bits) result
        (state_of before was log) (state_of (D.known desk.new) kept.new (W.log world.new)) }
    ensures waits { W.wait_faults world.new ≡ W.wait_faults world.old }
    ensures faults { W.faults world.old ≤ W.faults world.new }
    ensures origin { W.origin world.new ≡ W.origin world.old }
{
    match world.connect(server, link)? {
        Sent::Sent => {
            let mut held = HeldLink::new(kept.alloc, link, server);
            held.queue(message)?;
            kept.links.push(held)?;
        }
        Sent::Failed => {
            desk.fault(server, link, reading)?;
        }
    }
    Ok(())
}
