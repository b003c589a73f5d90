//! The part of a run that serves: it listens, and takes and answers one message after another.

ghost use Rattle.std.specs.Prelude.{◌≡◌, ◌⊎◌, ◌≤◌, IsTrue, IfOk};
ghost use Rattle.net_world.specs.Cause.{Rose, is_not_sent};
ghost use Rattle.test_nameserver.specs.Reply.{reply_to};
ghost use Rattle.test_nameserver.specs.Service.{GoesOnWith};
ghost use Rattle.test_nameserver.specs.Turns.{AreReplies, AreTurn, TurnTo, Serves};

use crate::ending::End;
use crate::listener::{Heard, Listener};
use crate::replying::answer;
use crate::zone::Zone;
use item_list::NoMemory;
use net_world::Sent;
use std::alloc::Global;

/// Listens on the port, and takes so many messages.
pub(crate) fn serve<L: Listener>(
    alloc: Global,
    zone: &Zone,
    port: u16,
    count: u16,
    listener: &mut L,
) -> End
    ensures known { (result ≡ End.Served) ⊎ (result ≡ End.SocketFault)
        ⊎ (result ≡ End.NoMemory) }
    ensures serves { GoesOnWith (Serves zone.now port count result)
        (L.log listener.old) (L.log listener.new) }
    ensures fault { result ≡ End.SocketFault
        → Rose (L.faults listener.old) (L.faults listener.new) }
{
    match listener.listen(port) {
        Ok(Sent::Sent) => take_turns(alloc, zone, count, listener),
        Ok(Sent::Failed) => End::SocketFault,
        Err(NoMemory) => End::NoMemory,
    }
}

/// Takes so many messages.
fn take_turns<L: Listener>(alloc: Global, zone: &Zone, count: u16, listener: &mut L) -> End
    ensures known { (result ≡ End.Served) ⊎ (result ≡ End.SocketFault)
        ⊎ (result ≡ End.NoMemory) }
    ensures turns { GoesOnWith (TurnTo zone.now count result)
        (L.log listener.old) (L.log listener.new) }
    ensures later { L.faults listener.old ≤ L.faults listener.new }
    ensures fault { result ≡ End.SocketFault
        → Rose (L.faults listener.old) (L.faults listener.new) }
{
    for _ in 0..count {
        match take_turn(alloc, zone, listener) {
            Ok(Sent::Sent) => {}
            Ok(Sent::Failed) => return End::SocketFault,
            Err(NoMemory) => return End::NoMemory,
        }
    }
    End::Served
}

/// Takes a message, and replies to it where it is a query.
fn take_turn<L: Listener>(alloc: Global, zone: &Zone, listener: &mut L) -> Result<Sent, NoMemory>
    ensures turn { GoesOnWith (AreTurn zone.now result)
        (L.log listener.old) (L.log listener.new) }
    ensures later { L.faults listener.old ≤ L.faults listener.new }
    ensures fault { IfOk result (λ sent. IsTrue (is_not_sent sent)
        → Rose (L.faults listener.old) (L.faults listener.new)) }
{
    match listener.next() {
        Ok(Heard::Message { tcp, bytes }) => send_reply(
            alloc,
            zone,
            tcp,
            bytes.as_slice(),
            listener,
        ),
        Ok(Heard::Failed) => Ok(Sent::Failed),
        Err(NoMemory) => Err(NoMemory),
    }
}

/// Replies to a message, where it is a query.
fn send_reply<L: Listener>(
    alloc: Global,
    zone: &Zone,
    tcp: bool,
    bytes: &[u8],
    listener: &mut L,
) -> Result<Sent, NoMemory>
    ensures replies { GoesOnWith (AreReplies (reply_to zone.now bytes.now tcp) result)
        (L.log listener.old) (L.log listener.new) }
    ensures later { L.faults listener.old ≤ L.faults listener.new }
    ensures fault { IfOk result (λ sent. IsTrue (is_not_sent sent)
        → Rose (L.faults listener.old) (L.faults listener.new)) }
{
    match answer(alloc, zone, bytes, tcp) {
        Ok(Some(reply)) => listener.reply(reply.as_slice()),
        Ok(None) => Ok(Sent::Sent),
        Err(NoMemory) => Err(NoMemory),
    }
}
