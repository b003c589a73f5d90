//! The part of a run that knows what is asked: it reads resolv.conf, and asks with its options.

ghost use Rattle.std.specs.Prelude.{◌≡◌, List, Option, ℕ};
ghost use Rattle.net_world.specs.declared.log.WorldCall.{WorldCall};
ghost use Rattle.tool_line.specs.Outside.{files_told, outside};
ghost use Rattle.adig_tool.specs.Running.{EndsEarly, IsRunFor};

use crate::putting::put_line;
use crate::resolving::resolve;
use item_list::NoMemory;
use net_world::{Files, Sink, World};
use run_end::Ended;
use std::alloc::Global;
use tool_line::{AdigAsk, Exit, FileFault, RESOLV_MOST, set_options};

/// Reads resolv.conf, asks with its options and what the words set in place of them, and puts the page, or the book.
pub fn ask<W: World, F: Files, K: Sink>(
    alloc: Global,
    asked: AdigAsk,
    files: &mut F,
    world: &mut W,
    sink: &mut K,
    turns: u64,
) -> Ended
    ensures promise { IsRunFor asked turns result
        (files_told (F.files files.old) (F.faults files.old) (F.reads files.old))
        (files_told (F.files files.new) (F.faults files.new) (F.reads files.new))
        (outside (W.log world.old) (W.wait_faults world.old) (K.bytes sink.old) (K.faults sink.old) (K.puts sink.old))
        (outside (W.log world.new) (W.wait_faults world.new) (K.bytes sink.new) (K.faults sink.new) (K.puts sink.new)) }
    ensures files { F.files files.new ≡ F.files files.old }
    ensures origin { W.origin world.new ≡ W.origin world.old }
{
    let AdigAsk {
        resolv,
        settings,
        spec,
        journal,
        cookie: _,
    } = asked;
    let Ok(file) = files.read(resolv.as_str(), RESOLV_MOST) else {
        return Ended::early(alloc, Exit::OutOfMemory.number());
    };
    match set_options(alloc, settings, &file) {
        Ok(options) => resolve(alloc, &spec, journal, options, world, sink, turns),
        Err(FileFault::Failed) => leave(alloc, sink, Exit::FileFault),
        Err(FileFault::TooLarge) => leave(alloc, sink, Exit::FileFault),
        Err(FileFault::NoMemory) => Ended::early(alloc, Exit::OutOfMemory.number()),
    }
}

/// Ends a run before it has a channel: the line of this end is put.
pub fn leave<K: Sink>(alloc: Global, sink: &mut K, end: Exit) -> Ended
    ensures { (log : Option (List WorldCall)) (wait_faults : ℕ) → EndsEarly end result
        (outside log wait_faults (K.bytes sink.old) (K.faults sink.old) (K.puts sink.old))
        (outside log wait_faults (K.bytes sink.new) (K.faults sink.new) (K.puts sink.new)) }
{
    let status = put_line(sink, end);
    Ended::early(alloc, status)
}
