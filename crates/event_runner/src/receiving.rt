//! The part of a turn that receives.

ghost use Rattle.std.specs.Prelude.{◌≡◌, ◌≤◌, List, Option};
ghost use Rattle.net_world.specs.declared.log.WorldCall.{WorldCall};
ghost use Rattle.net_world.specs.declared.log.WorldCall.TheVariants.{Receive};
ghost use Rattle.net_world.specs.declared.answers.Got.TheVariants.{Datagram, Piece, Ended, Failed as LinkFailed};
ghost use Rattle.channel_model.specs.Turn.{receiving};
ghost use Rattle.event_runner.specs.State.{state_of, Gets};
ghost use Rattle.event_runner.specs.Goes.{Ends};
ghost use Rattle.event_runner.specs.Parts.{Hears, HearsOne, CutHearing, MakesPart, CutPart};

use crate::kept::{Kept, find_link};
use channel_model::Desk;
use item_list::NoMemory;
use net_world::{Got, World};

/// The most items that one turn receives.
const MOST: u64 = 64;

/// The link of datagrams.
const UDP: u64 = 0;

/// Receives until nothing is there, or 64 items. Answers how many came.
pub fn receive_all<D: Desk, W: World>(
    desk: &mut D,
    world: &mut W,
    kept: &mut Kept,
    reading: u64,
) -> Result<u64, NoMemory>
    ensures goes { Ends (λ count. MakesPart reading receiving count 0 0)
        (CutPart reading receiving) result (state_of (D.known desk.old) kept.old (W.log world.old))
        (state_of (D.known desk.new) kept.new (W.log world.new)) }
    ensures waits { W.wait_faults world.new ≡ W.wait_faults world.old }
    ensures faults { W.faults world.old ≤ W.faults world.new }
    ensures origin { W.origin world.new ≡ W.origin world.old }
{
    for received in 0..MOST {
        if !receive_one(desk, world, kept, reading)? {
            return Ok(received);
        }
    }
    Ok(MOST)
}

/// Receives one item and hands it on, if one is there.
fn receive_one<D: Desk, W: World>(
    desk: &mut D,
    world: &mut W,
    kept: &mut Kept,
    reading: u64,
) -> Result<bool, NoMemory>
    ensures goes { Ends (HearsOne reading) (CutHearing reading) result
        (state_of (D.known desk.old) kept.old (W.log world.old))
        (state_of (D.known desk.new) kept.new (W.log world.new)) }
    ensures waits { W.wait_faults world.new ≡ W.wait_faults world.old }
    ensures faults { W.faults world.old ≤ W.faults world.new }
    ensures origin { W.origin world.new ≡ W.origin world.old }
{
    match world.receive()? {
        Got::Datagram(server, bytes) => {
            desk.arrive(server, UDP, bytes.as_slice())?;
        }
        Got::Piece(link, bytes) => take_piece(desk, kept, link, bytes.as_slice(), reading)?,
        Got::Ended(link) => take_end(desk, world, kept, link, reading)?,
        Got::Failed(server, link) => take_failure(desk, world, kept, server, link, reading)?,
        Got::Nothing => return Ok(false),
    }
    Ok(true)
}

/// Hands the channel the messages that become whole with a piece that was received. A piece of a link that isn't held is
/// passed over.
fn take_piece<D: Desk>(
    desk: &mut D,
    kept: &mut Kept,
    number: u64,
    bytes: &[u8],
    reading: u64,
) -> Result<(), NoMemory>
    ensures goes { (before after : Option (List WorldCall))
        → Gets (Receive (Piece number bytes.now)) before after
        → Ends (λ done. Hears reading 1) (CutHearing reading) result
        (state_of (D.known desk.old) kept.old before) (state_of (D.known desk.new) kept.new after) }
{
    match find_link(&kept.links, number) {
        Some(index) => {
            let link = &mut kept.links[index];
            link.feed(desk, bytes)
        }
        None => Ok(()),
    }
}

/// Fails the attempts over a link that ended. The end of a link that isn't held is passed over.
fn take_end<D: Desk, W: World>(
    desk: &mut D,
    world: &mut W,
    kept: &mut Kept,
    number: u64,
    reading: u64,
) -> Result<(), NoMemory>
    ensures goes { (before : Option (List WorldCall))
        → Gets (Receive (Ended number)) before (W.log world.old)
        → Ends (λ done. Hears reading 1) (CutHearing reading) result
        (state_of (D.known desk.old) kept.old before)
        (state_of (D.known desk.new) kept.new (W.log world.new)) }
    ensures waits { W.wait_faults world.new ≡ W.wait_faults world.old }
    ensures faults { W.faults world.old ≤ W.faults world.new }
    ensures origin { W.origin world.new ≡ W.origin world.old }
{
    match find_link(&kept.links, number) {
        Some(index) => {
            let server = kept.links[index].server();
            desk.fault(server, number, reading)?;
            world.close(number)?;
            kept.links.remove(index);
            Ok(())
        }
        None => Ok(()),
    }
}

/// Fails the attempts over a link that failed: where it is held, to the server that it was connected to.
fn take_failure<D: Desk, W: World>(
    desk: &mut D,
    world: &mut W,
    kept: &mut Kept,
    server: u32,
    number: u64,
    reading: u64,
) -> Result<(), NoMemory>
    ensures goes { (before : Option (List WorldCall))
        → Gets (Receive (LinkFailed server number)) before (W.log world.old)
        → Ends (λ done. Hears reading 1) (CutHearing reading) result
        (state_of (D.known desk.old) kept.old before)
        (state_of (D.known desk.new) kept.new (W.log world.new)) }
    ensures waits { W.wait_faults world.new ≡ W.wait_faults world.old }
    ensures faults { W.faults world.old ≤ W.faults world.new }
    ensures origin { W.origin world.new ≡ W.origin world.old }
{
    match find_link(&kept.links, number) {
        Some(index) => {
            let server = kept.links[index].server();
            desk.fault(server, number, reading)?;
            world.close(number)?;
            kept.links.remove(index);
        }
        None => {
            desk.fault(server, number, reading)?;
        }
    }
    Ok(())
}
