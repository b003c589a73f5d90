//! The whole run of the program.

ghost use Rattle.std.specs.Prelude.{◌≡◌, List, Option, map, ℕ};
ghost use Rattle.net_world.specs.declared.log.WorldCall.{WorldCall};
ghost use Rattle.tool_line.specs.Outside.{files_told, outside};
ghost use Rattle.adig_tool.specs.Running.{AreRefused, ForWords, IsRun, IsUnasked};

use crate::asking::{ask, leave};
use crate::cookies::ask_with_cookies;
use crate::ended::Ended;
use net_world::{Files, Sink, World};
use std::alloc::Global;
use tool_line::{AdigAsk, Exit, WordFault, adig_ask};

/// Reads the words and resolv.conf, asks, and puts the page: at most `turns` turns over the network.
pub fn run<W: World, F: Files, K: Sink>(
    alloc: Global,
    words: &[&str],
    files: &mut F,
    world: &mut W,
    sink: &mut K,
    turns: u64,
) -> Ended
    // Words that ask nothing are refused: no file is read, and the network isn't called.
    ensures refused { AreRefused (map (λ word. word.now) words.now)
        → (files.new ≡ files.old) × (world.new ≡ world.old) × IsUnasked result
        (outside (W.log world.old) (W.wait_faults world.old) (K.bytes sink.old) (K.faults sink.old) (K.puts sink.old))
        (outside (W.log world.new) (W.wait_faults world.new) (K.bytes sink.new) (K.faults sink.new) (K.puts sink.new)) }

    // Words that ask something: resolv.conf is read once, with its options the run keeps its promise, and its answers are
    // replies to queries of this run. With cookies that is so over a network with cookies around this one.
    ensures promise { ForWords (map (λ word. word.now) words.now) (λ asked. IsRun asked turns result
        (files_told (F.files files.old) (F.faults files.old) (F.reads files.old))
        (files_told (F.files files.new) (F.faults files.new) (F.reads files.new))
        (outside (W.log world.old) (W.wait_faults world.old) (K.bytes sink.old) (K.faults sink.old) (K.puts sink.old))
        (outside (W.log world.new) (W.wait_faults world.new) (K.bytes sink.new) (K.faults sink.new) (K.puts sink.new))) }

    // The files stay as they are, and the network is the one that was lent.
    ensures files { F.files files.new ≡ F.files files.old }
    ensures origin { W.origin world.new ≡ W.origin world.old }
{
    match adig_ask(alloc, words) {
        Ok(asked) => ask_by_flag(alloc, asked, files, world, sink, turns),
        Err(WordFault::Refused) => leave_unasked(alloc, sink),
        Err(WordFault::NoMemory) => Ended::early(alloc),
    }
}

/// Ends a run whose words ask nothing.
fn leave_unasked<K: Sink>(alloc: Global, sink: &mut K) -> Ended
    ensures { (log : Option (List WorldCall)) (wait_faults : ℕ) → IsUnasked result
        (outside log wait_faults (K.bytes sink.old) (K.faults sink.old) (K.puts sink.old))
        (outside log wait_faults (K.bytes sink.new) (K.faults sink.new) (K.puts sink.new)) }
{
    Ended::plain(alloc, leave(alloc, sink, Exit::Usage))
}

/// Asks, over a network with cookies where the words have it so.
fn ask_by_flag<W: World, F: Files, K: Sink>(
    alloc: Global,
    asked: AdigAsk,
    files: &mut F,
    world: &mut W,
    sink: &mut K,
    turns: u64,
) -> Ended
    ensures promise { IsRun asked turns result
        (files_told (F.files files.old) (F.faults files.old) (F.reads files.old))
        (files_told (F.files files.new) (F.faults files.new) (F.reads files.new))
        (outside (W.log world.old) (W.wait_faults world.old) (K.bytes sink.old) (K.faults sink.old) (K.puts sink.old))
        (outside (W.log world.new) (W.wait_faults world.new) (K.bytes sink.new) (K.faults sink.new) (K.puts sink.new)) }
    ensures files { F.files files.new ≡ F.files files.old }
    ensures origin { W.origin world.new ≡ W.origin world.old }
{
    if asked.cookie {
        ask_with_cookies(alloc, asked, files, world, sink, turns)
    } else {
        Ended::plain(alloc, ask(alloc, asked, files, world, sink, turns))
    }
}
