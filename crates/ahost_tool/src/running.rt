//! The whole run of the program.

ghost use Rattle.std.specs.Prelude.{◌≡◌, ◌≤◌, All, IfSome, IsTrue, None, length, map, ◌↔◌};
ghost use Rattle.tool_line.specs.Outside.{files_told, outside};
ghost use Rattle.tool_line.specs.declared.ending.Exit.TheVariants.{Usage};
ghost use Rattle.ahost_tool.specs.Loading.{IsLoadRun, IsWithinLimits};
ghost use Rattle.owner_session.specs.Returning.{AreBack, numbers_asked};
ghost use Rattle.ahost_tool.specs.Running.{AreRefused, EndsEarly, ForWords, IsRunFor, IsServed, count_names};

use crate::asking::{ask, leave};
use crate::loading::load;
use completion_ticket::Done;
use net_world::{Files, Sink, World};
use run_end::Ended;
use std::alloc::Global;
use tool_line::{AhostAsk, Exit, WordFault, ahost_ask};

/// Reads the words, resolv.conf and the hosts file, asks for the addresses of each name with the body at its place, and
/// puts the page, or with `--journal` the book of the run: at most `turns` turns over the network. A load is asked for over
/// a network of its own, and no file is read: its summary is put.
pub fn run<B: Done + Drop, W: World, F: Files, K: Sink>(
    alloc: Global,
    words: &[&str],
    bodies: Vec<B>,
    files: &mut F,
    world: &mut W,
    sink: &mut K,
    turns: u64,
) -> Ended
    requires fresh { All (λ body. B.told body ≡ None) bodies.items }
    // Words that ask nothing, or more than there are bodies for, are refused: no file is read, and the network isn't called.
    ensures refused { AreRefused (map (λ word. word.now) words.now) (length bodies.items)
        → (files.new ≡ files.old) × (world.new ≡ world.old) × EndsEarly Usage result
        (outside (W.log world.old) (W.wait_faults world.old) (K.bytes sink.old) (K.faults sink.old) (K.puts sink.old))
        (outside (W.log world.new) (W.wait_faults world.new) (K.bytes sink.new) (K.faults sink.new) (K.puts sink.new)) }

    // Words that ask for names: the run keeps its promise, with the setting that the files and the words give.
    ensures promise { ForWords (map (λ word. word.now) words.now) (length bodies.items)
        (λ asked. asked.load ≡ None → IsRunFor asked (map B.plan bodies.items) turns result
        (files_told (F.files files.old) (F.faults files.old) (F.reads files.old))
        (files_told (F.files files.new) (F.faults files.new) (F.reads files.new))
        (outside (W.log world.old) (W.wait_faults world.old) (K.bytes sink.old) (K.faults sink.old) (K.puts sink.old))
        (outside (W.log world.new) (W.wait_faults world.new) (K.bytes sink.new) (K.faults sink.new) (K.puts sink.new))) }

    // Words that ask for a load: the run keeps its promise over a network of its own, and files and network are left alone.
    ensures load { ForWords (map (λ word. word.now) words.now) (length bodies.items)
        (λ asked. IfSome asked.load (λ load. (files.new ≡ files.old) × (world.new ≡ world.old)
        × IsLoadRun load (map B.plan bodies.items) turns result
        (record { bytes = K.bytes sink.old; faults = K.faults sink.old; puts = K.puts sink.old })
        (record { bytes = K.bytes sink.new; faults = K.faults sink.new; puts = K.puts sink.new }))) }

    // The files stay as they are, and so does what tells how the network was made.
    ensures files { F.files files.new ≡ F.files files.old }
    ensures origin { W.origin world.new ≡ W.origin world.old }
{
    let (ended, _bodies) = run_returning_bodies(alloc, words, bodies, files, world, sink, turns);
    ended
}

/// The same with boxed bodies, as a program hands them in.
pub fn run_boxed<W: World, F: Files, K: Sink>(
    alloc: Global,
    words: &[&str],
    boxes: Vec<Box<dyn Done + Send + Drop>>,
    files: &mut F,
    world: &mut W,
    sink: &mut K,
    turns: u64,
) -> Ended
    requires fresh { All (λ body. told body ≡ None) boxes.items }
    ensures refused { AreRefused (map (λ word. word.now) words.now) (length boxes.items)
        → (files.new ≡ files.old) × (world.new ≡ world.old) × EndsEarly Usage result
        (outside (W.log world.old) (W.wait_faults world.old) (K.bytes sink.old) (K.faults sink.old) (K.puts sink.old))
        (outside (W.log world.new) (W.wait_faults world.new) (K.bytes sink.new) (K.faults sink.new) (K.puts sink.new)) }
    ensures promise { ForWords (map (λ word. word.now) words.now) (length boxes.items)
        (λ asked. asked.load ≡ None → IsRunFor asked (map (λ body. plan body) boxes.items) turns result
        (files_told (F.files files.old) (F.faults files.old) (F.reads files.old))
        (files_told (F.files files.new) (F.faults files.new) (F.reads files.new))
        (outside (W.log world.old) (W.wait_faults world.old) (K.bytes sink.old) (K.faults sink.old) (K.puts sink.old))
        (outside (W.log world.new) (W.wait_faults world.new) (K.bytes sink.new) (K.faults sink.new) (K.puts sink.new))) }
    ensures load { ForWords (map (λ word. word.now) words.now) (length boxes.items)
        (λ asked. IfSome asked.load (λ load. (files.new ≡ files.old) × (world.new ≡ world.old)
        × IsLoadRun load (map (λ body. plan body) boxes.items) turns result
        (record { bytes = K.bytes sink.old; faults = K.faults sink.old; puts = K.puts sink.old })
        (record { bytes = K.bytes sink.new; faults = K.faults sink.new; puts = K.puts sink.new }))) }
    ensures files { F.files files.new ≡ F.files files.old }
    ensures origin { W.origin world.new ≡ W.origin world.old }
{
    run(alloc, words, boxes, files, world, sink, turns)
}

/// The same, and the bodies come back, in the order in which they were given: that of each name whose request was accepted
/// was told the answer of that request, and the others are as they were, but one whose request was refused knows that.
pub fn run_returning_bodies<B: Done + Drop, W: World, F: Files, K: Sink>(
    alloc: Global,
    words: &[&str],
    bodies: Vec<B>,
    files: &mut F,
    world: &mut W,
    sink: &mut K,
    turns: u64,
) -> (Ended, Vec<B>)
    requires fresh { All (λ body. B.told body ≡ None) bodies.items }
    // Words that ask nothing, or more than there are bodies for, are refused: no file is read, and the network isn't called.
    ensures refused { AreRefused (map (λ word. word.now) words.now) (length bodies.items)
        → (files.new ≡ files.old) × (world.new ≡ world.old) × EndsEarly Usage result.0
        (outside (W.log world.old) (W.wait_faults world.old) (K.bytes sink.old) (K.faults sink.old) (K.puts sink.old))
        (outside (W.log world.new) (W.wait_faults world.new) (K.bytes sink.new) (K.faults sink.new) (K.puts sink.new)) }

    // Words that ask for names: the run keeps its promise, with the setting that the files and the words give.
    ensures promise { ForWords (map (λ word. word.now) words.now) (length bodies.items)
        (λ asked. asked.load ≡ None → IsRunFor asked (map B.plan bodies.items) turns result.0
        (files_told (F.files files.old) (F.faults files.old) (F.reads files.old))
        (files_told (F.files files.new) (F.faults files.new) (F.reads files.new))
        (outside (W.log world.old) (W.wait_faults world.old) (K.bytes sink.old) (K.faults sink.old) (K.puts sink.old))
        (outside (W.log world.new) (W.wait_faults world.new) (K.bytes sink.new) (K.faults sink.new) (K.puts sink.new))) }

    // Words that ask for a load: the run keeps its promise over a network of its own, and files and network are left alone.
    ensures load { ForWords (map (λ word. word.now) words.now) (length bodies.items)
        (λ asked. IfSome asked.load (λ load. (files.new ≡ files.old) × (world.new ≡ world.old)
        × IsLoadRun load (map B.plan bodies.items) turns result.0
        (record { bytes = K.bytes sink.old; faults = K.faults sink.old; puts = K.puts sink.old })
        (record { bytes = K.bytes sink.new; faults = K.faults sink.new; puts = K.puts sink.new }))) }

    // The files stay as they are, and so does what tells how the network was made.
    ensures files { F.files files.new ≡ F.files files.old }
    ensures origin { W.origin world.new ≡ W.origin world.old }

    // Each body is back, and no other one: those of the requests that the run asked, in order, were told their answers.
    ensures bodies { AreBack B.name B.told B.refusal (numbers_asked result.0.journal) bodies.items result.1.items }
{
    match ahost_ask(alloc, words) {
        Ok(asked) if is_served(&asked, bodies.len()) => {
            serve(alloc, asked, bodies, files, world, sink, turns)
        }
        Ok(_) => (leave(alloc, sink, Exit::Usage), bodies),
        Err(WordFault::Refused) => (leave(alloc, sink, Exit::Usage), bodies),
        Err(WordFault::NoMemory) => {
            let ended = Ended::early(alloc, Exit::OutOfMemory.number());
            (ended, bodies)
        }
    }
}

/// Asks for the load, or else for the names. The bodies come back.
fn serve<B: Done + Drop, W: World, F: Files, K: Sink>(
    alloc: Global,
    asked: AhostAsk,
    bodies: Vec<B>,
    files: &mut F,
    world: &mut W,
    sink: &mut K,
    turns: u64,
) -> (Ended, Vec<B>)
    requires fresh { All (λ body. B.told body ≡ None) bodies.items }
    requires limits { IfSome asked.load IsWithinLimits }
    requires servers { IfSome asked.later (λ later. (1 ≤ length later) × (length later ≤ 8)) }
    ensures promise { asked.load ≡ None → IsRunFor asked (map B.plan bodies.items) turns result.0
        (files_told (F.files files.old) (F.faults files.old) (F.reads files.old))
        (files_told (F.files files.new) (F.faults files.new) (F.reads files.new))
        (outside (W.log world.old) (W.wait_faults world.old) (K.bytes sink.old) (K.faults sink.old) (K.puts sink.old))
        (outside (W.log world.new) (W.wait_faults world.new) (K.bytes sink.new) (K.faults sink.new) (K.puts sink.new)) }
    ensures load { IfSome asked.load (λ load. (files.new ≡ files.old) × (world.new ≡ world.old)
        × IsLoadRun load (map B.plan bodies.items) turns result.0
        (record { bytes = K.bytes sink.old; faults = K.faults sink.old; puts = K.puts sink.old })
        (record { bytes = K.bytes sink.new; faults = K.faults sink.new; puts = K.puts sink.new })) }
    ensures bodies { AreBack B.name B.told B.refusal (numbers_asked result.0.journal) bodies.items result.1.items }
    ensures files { F.files files.new ≡ F.files files.old }
    ensures origin { W.origin world.new ≡ W.origin world.old }
{
    match asked.load {
        Some(wanted) => load(alloc, wanted, bodies, sink, turns),
        None => ask(alloc, asked, bodies, files, world, sink, turns),
    }
}

/// Whether this is asked of one thread, for names, each of which has a body.
fn is_served(asked: &AhostAsk, bodies: usize) -> bool
    ensures { IsTrue result ↔ IsServed bodies asked.now }
{
    asked.workers == 0 && count_names(asked) <= bodies
}

/// How many names are asked for: those of a load, or those of the words.
pub fn count_names(asked: &AhostAsk) -> usize
    ensures { result ≡ count_names asked.now.load asked.now.specs }
{
    match asked.load {
        Some(load) => load.names as usize,
        None => asked.specs.len(),
    }
}
