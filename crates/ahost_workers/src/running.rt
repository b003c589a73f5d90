//! The whole run of the program with workers.

ghost use Rattle.std.specs.Prelude.{◌≡◌, ◌<◌, ◌≤◌, ◌↔◌, All, IfSome, IsTrue, None, length, map};
ghost use Rattle.tool_line.specs.Outside.{files_told, outside};
ghost use Rattle.tool_line.specs.declared.ending.Exit.TheVariants.{Usage};
ghost use Rattle.ahost_tool.specs.Loading.{IsWithinLimits};
ghost use Rattle.ahost_tool.specs.Running.{EndsEarly};
ghost use Rattle.ahost_workers.specs.Loading.{IsLoadRunWith};
ghost use Rattle.ahost_workers.specs.Running.{AreRefusedWith, ForWorkers, IsRunWith, IsServedWith};

use crate::asking::ask_with;
use crate::loading::load_with;
use ahost_tool::{count_names, leave};
use completion_ticket::Done;
use net_world::{Files, Sink, World};
use run_end::Ended;
use std::alloc::Global;
use std::sync::Wait;
use std::thread::Threads;
use tool_line::{AhostAsk, Exit, WordFault, ahost_ask};

/// Reads the words, resolv.conf and the hosts file, and asks for the addresses of each name, as `ahost_tool::run` does, where
/// the words want workers: as many threads call the callbacks, each of which is the body at its name's place, while the
/// caller's thread makes at most `turns` turns over the network. Puts the page, or with `--journal` the book of the run. A
/// load is asked for over a network of its own, and no file is read: its summary is put. The network comes back.
pub fn run_with_workers<
    B: Done + Drop + Send,
    R: Threads + Wait + Sync,
    W: World + Drop + Send,
    F: Files,
    K: Sink,
>(
    alloc: Global,
    rt: &R,
    words: &[&str],
    bodies: Vec<B>,
    files: &mut F,
    world: W,
    sink: &mut K,
    turns: u64,
) -> (Ended, W)
    requires fresh { All (λ body. B.told body ≡ None) bodies.items }
    // Words that ask nothing, or nothing of workers, or more than there are bodies for, are refused: no file is read, and the
    // network isn't called.
    ensures refused { AreRefusedWith (map (λ word. word.now) words.now) (length bodies.items)
        → (files.new ≡ files.old) × (result.1 ≡ world) × EndsEarly Usage result.0
        (outside (W.log world) (W.wait_faults world) (K.bytes sink.old) (K.faults sink.old) (K.puts sink.old))
        (outside (W.log result.1) (W.wait_faults result.1) (K.bytes sink.new) (K.faults sink.new) (K.puts sink.new)) }

    // Words that ask for names: the run keeps its promise, with the setting that the files and the words give.
    ensures promise { ForWorkers (map (λ word. word.now) words.now) (length bodies.items)
        (λ asked. asked.load ≡ None → IsRunWith asked (map B.plan bodies.items) turns result.0
        (files_told (F.files files.old) (F.faults files.old) (F.reads files.old))
        (files_told (F.files files.new) (F.faults files.new) (F.reads files.new))
        (outside (W.log world) (W.wait_faults world) (K.bytes sink.old) (K.faults sink.old) (K.puts sink.old))
        (outside (W.log result.1) (W.wait_faults result.1) (K.bytes sink.new) (K.faults sink.new) (K.puts sink.new))) }

    // Words that ask for a load: the run keeps its promise over a network of its own, and files and network are left alone.
    ensures load { ForWorkers (map (λ word. word.now) words.now) (length bodies.items)
        (λ asked. IfSome asked.load (λ load. (files.new ≡ files.old) × (result.1 ≡ world)
        × IsLoadRunWith asked.workers load (map B.plan bodies.items) turns result.0
        (record { bytes = K.bytes sink.old; faults = K.faults sink.old; puts = K.puts sink.old })
        (record { bytes = K.bytes sink.new; faults = K.faults sink.new; puts = K.puts sink.new }))) }

    // The files stay as they are, and so does what tells how the network was made.
    ensures files { F.files files.new ≡ F.files files.old }
    ensures origin { W.origin result.1 ≡ W.origin world }
{
    match ahost_ask(alloc, words) {
        Ok(asked) if is_served(&asked, bodies.len()) => {
            serve(alloc, rt, asked, bodies, files, world, sink, turns)
        }
        Ok(_) => (leave(alloc, sink, Exit::Usage), world),
        Err(WordFault::Refused) => (leave(alloc, sink, Exit::Usage), world),
        Err(WordFault::NoMemory) => (Ended::early(alloc, Exit::OutOfMemory.number()), world),
    }
}

/// The same with boxed bodies, as a program hands them in.
pub fn run_boxed_with_workers<R: Threads + Wait + Sync, W: World + Drop + Send, F: Files, K: Sink>(
    alloc: Global,
    rt: &R,
    words: &[&str],
    boxes: Vec<Box<dyn Done + Send + Drop>>,
    files: &mut F,
    world: W,
    sink: &mut K,
    turns: u64,
) -> (Ended, W)
    requires fresh { All (λ body. told body ≡ None) boxes.items }
    ensures refused { AreRefusedWith (map (λ word. word.now) words.now) (length boxes.items)
        → (files.new ≡ files.old) × (result.1 ≡ world) × EndsEarly Usage result.0
        (outside (W.log world) (W.wait_faults world) (K.bytes sink.old) (K.faults sink.old) (K.puts sink.old))
        (outside (W.log result.1) (W.wait_faults result.1) (K.bytes sink.new) (K.faults sink.new) (K.puts sink.new)) }
    ensures promise { ForWorkers (map (λ word. word.now) words.now) (length boxes.items)
        (λ asked. asked.load ≡ None → IsRunWith asked (map (λ body. plan body) boxes.items) turns result.0
        (files_told (F.files files.old) (F.faults files.old) (F.reads files.old))
        (files_told (F.files files.new) (F.faults files.new) (F.reads files.new))
        (outside (W.log world) (W.wait_faults world) (K.bytes sink.old) (K.faults sink.old) (K.puts sink.old))
        (outside (W.log result.1) (W.wait_faults result.1) (K.bytes sink.new) (K.faults sink.new) (K.puts sink.new))) }
    ensures load { ForWorkers (map (λ word. word.now) words.now) (length boxes.items)
        (λ asked. IfSome asked.load (λ load. (files.new ≡ files.old) × (result.1 ≡ world)
        × IsLoadRunWith asked.workers load (map (λ body. plan body) boxes.items) turns result.0
        (record { bytes = K.bytes sink.old; faults = K.faults sink.old; puts = K.puts sink.old })
        (record { bytes = K.bytes sink.new; faults = K.faults sink.new; puts = K.puts sink.new }))) }
    ensures files { F.files files.new ≡ F.files files.old }
    ensures origin { W.origin result.1 ≡ W.origin world }
{
    run_with_workers(alloc, rt, words, boxes, files, world, sink, turns)
}

/// Asks for the load, or else for the names.
fn serve<
    B: Done + Drop + Send,
    R: Threads + Wait + Sync,
    W: World + Drop + Send,
    F: Files,
    K: Sink,
>(
    alloc: Global,
    rt: &R,
    asked: AhostAsk,
    bodies: Vec<B>,
    files: &mut F,
    world: W,
    sink: &mut K,
    turns: u64,
) -> (Ended, W)
    requires fresh { All (λ body. B.told body ≡ None) bodies.items }
    requires workers { (0 < asked.workers) × (asked.workers ≤ 16) }
    requires limits { IfSome asked.load IsWithinLimits }
    requires servers { IfSome asked.later (λ later. (1 ≤ length later) × (length later ≤ 8)) }
    ensures promise { asked.load ≡ None → IsRunWith asked (map B.plan bodies.items) turns result.0
        (files_told (F.files files.old) (F.faults files.old) (F.reads files.old))
        (files_told (F.files files.new) (F.faults files.new) (F.reads files.new))
        (outside (W.log world) (W.wait_faults world) (K.bytes sink.old) (K.faults sink.old) (K.puts sink.old))
        (outside (W.log result.1) (W.wait_faults result.1) (K.bytes sink.new) (K.faults sink.new) (K.puts sink.new)) }
    ensures load { IfSome asked.load (λ load. (files.new ≡ files.old) × (result.1 ≡ world)
        × IsLoadRunWith asked.workers load (map B.plan bodies.items) turns result.0
        (record { bytes = K.bytes sink.old; faults = K.faults sink.old; puts = K.puts sink.old })
        (record { bytes = K.bytes sink.new; faults = K.faults sink.new; puts = K.puts sink.new })) }
    ensures files { F.files files.new ≡ F.files files.old }
    ensures origin { W.origin result.1 ≡ W.origin world }
{
    match asked.load {
        Some(wanted) => {
            let workers = u64::from(asked.workers);
            (
                load_with(alloc, rt, wanted, workers, bodies, sink, turns),
                world,
            )
        }
        None => ask_with(alloc, rt, asked, bodies, files, world, sink, turns),
    }
}

/// Whether this is asked of workers, for names, each of which has a body.
fn is_served(asked: &AhostAsk, bodies: usize) -> bool
    ensures { IsTrue result ↔ IsServedWith bodies asked.now }
{
    asked.workers != 0 && count_names(asked) <= bodies
}
