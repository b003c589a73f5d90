//! The whole run of the server's program.

ghost use Rattle.std.specs.Prelude.{◌≡◌, map, ℕ};
ghost use Rattle.test_nameserver.specs.Ending.{number_of};
ghost use Rattle.test_nameserver.specs.Headline.{HasExitCause, Refuses};
ghost use Rattle.test_nameserver.specs.Lines.{zone_of};
ghost use Rattle.test_nameserver.specs.Order.{AreRefused, ForWords, order_seen};
ghost use Rattle.test_nameserver.specs.Output.{IsOutputOf, PutsTextOf};
ghost use Rattle.test_nameserver.specs.Reading.{ReadsOnce, ReadsZoneFile};
ghost use Rattle.test_nameserver.specs.Service.{GoesOnWith, IsServiceOf};
ghost use Rattle.test_nameserver.specs.Turns.{HasCauseOf, Opens, ReadsText};

use crate::ending::End;
use crate::fault::ZoneFault;
use crate::listener::Listener;
use crate::order::{Ordered, read_words};
use crate::serving::serve;
use crate::zone::Zone;
use item_list::NoMemory;
use net_world::{FileRead, Files, Sink};
use std::alloc::Global;

/// The most bytes of a zone's file (this project's profile).
const ZONE_MOST: u64 = 1_048_576;

/// Reads the words and the zone, listens, and takes so many messages, to each of which it replies before the next one.
pub fn run<F: Files, K: Sink, L: Listener>(
    alloc: Global,
    words: &[&str],
    files: &mut F,
    sink: &mut K,
    listener: &mut L,
) -> u8
    // Words of another form are refused, and nothing else is called.
    ensures refused { AreRefused (map (λ word. word.now) words.now)
        → Refuses result files.old files.new listener.old listener.new (K.bytes sink.old) (K.bytes sink.new) }

    // The exit status has its cause, and the output is that of the status, put at once; files stay as they are.
    ensures status { HasExitCause (map (λ word. word.now) words.now) result (F.files files.old)
        (F.faults files.old) (F.faults files.new) (K.faults sink.old) (K.faults sink.new)
        (L.faults listener.old) (L.faults listener.new) }
    ensures output { IsOutputOf (λ told. HasExitCause (map (λ word. word.now) words.now) told
        (F.files files.old) (F.faults files.old) (F.faults files.new) (K.faults sink.old)
        (K.faults sink.new) (L.faults listener.old) (L.faults listener.new)) result (K.bytes sink.old)
        (K.bytes sink.new) }
    ensures puts { (told : ℕ) × HasExitCause (map (λ word. word.now) words.now) told (F.files files.old)
        (F.faults files.old) (F.faults files.new) (K.faults sink.old) (K.faults sink.new)
        (L.faults listener.old) (L.faults listener.new)
        × PutsTextOf told result (K.puts sink.old) (K.puts sink.new) }

    // The zone's file is read once, and no other one.
    ensures reads { ForWords (map (λ word. word.now) words.now)
        (λ order. ReadsOnce order.path result (F.reads files.old) (F.reads files.new)) }
    ensures files { F.files files.new ≡ F.files files.old }

    // Where the listener tells its log, this run listened, took messages and answered them, and nothing else.
    ensures service { ForWords (map (λ word. word.now) words.now)
        (λ order. GoesOnWith (IsServiceOf (F.files files.old) order result) (L.log listener.old)
        (L.log listener.new)) }
{
    match read_words(words) {
        Some(order) => carry_out(alloc, &order, files, listener).tell(sink),
        None => End::Refused.tell(sink),
    }
}

/// Does what was ordered.
fn carry_out<F: Files, L: Listener>(
    alloc: Global,
    order: &Ordered<'_>,
    files: &mut F,
    listener: &mut L,
) -> End
    ensures cause { HasCauseOf (order_seen order.now) result (F.files files.old)
        (F.faults files.old) (F.faults files.new) (L.faults listener.old) (L.faults listener.new) }
    ensures reads { ReadsOnce order.now.path.now (number_of result) (F.reads files.old) (F.reads files.new) }
    ensures files { F.files files.new ≡ F.files files.old }
    ensures service { GoesOnWith (IsServiceOf (F.files files.old) (order_seen order.now) (number_of result))
        (L.log listener.old) (L.log listener.new) }
{
    match open_zone(alloc, order.path, files) {
        Ok(zone) => serve(alloc, &zone, order.port, order.count, listener),
        Err(end) => end,
    }
}

/// The zone of the file of this path, or how the run ends without one.
fn open_zone<F: Files>(alloc: Global, path: &str, files: &mut F) -> Result<Zone, End>
    ensures opens { Opens (F.files files.old) path.now (F.faults files.old) (F.faults files.new) result }
    ensures reads { ReadsZoneFile path.now result (F.reads files.old) (F.reads files.new) }
    ensures files { F.files files.new ≡ F.files files.old }
{
    match files.read(path, ZONE_MOST) {
        Ok(FileRead::Content(text)) => read_zone(alloc, text.as_slice()),
        Ok(FileRead::Absent | FileRead::Large | FileRead::Failed) => Err(End::FileFault),
        Err(NoMemory) => Err(End::NoMemory),
    }
}

/// The zone that a text says, or how the run ends without one.
fn read_zone(alloc: Global, text: &[u8]) -> Result<Zone, End>
    ensures { ReadsText (zone_of text.now) result }
{
    match Zone::read(alloc, text) {
        Ok(zone) => Ok(zone),
        Err(ZoneFault::BadLine(_)) => Err(End::BadZone),
        Err(ZoneFault::TooLarge) => Err(End::FileFault),
        Err(ZoneFault::NoMemory) => Err(End::NoMemory),
    }
}
