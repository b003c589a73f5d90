//! The whole run of the program.

ghost use Rattle.std.specs.Prelude.{◌≡◌, ◌≤◌, [], IfOk, map, true};
ghost use Rattle.query_cache.specs.Cache.{new_cache};
ghost use Rattle.tool_line.specs.Outside.{outside};
ghost use Rattle.acache_tool.specs.Asked as meaning;
ghost use Rattle.acache_tool.specs.Asked.{AreRefused, ForWords, asked_of};
ghost use Rattle.acache_tool.specs.Parts.{most_seconds};
ghost use Rattle.acache_tool.specs.Running.{Begins, IsRun, IsUnasked};
ghost use Rattle.acache_tool.specs.Closing.{end_by};

use crate::asked::{CacheAsk, cache_ask};
use crate::asking::{Asker, ask_all};
use crate::closing::close;
use crate::putting::{put_line, tell};
use crate::shown::Shown;
use chan_types::Calls;
use channel_session::Session;
use channel_table::Alone;
use hosts_file::Hosts;
use item_list::NoMemory;
use net_addr::{Addr, ServerAddr, ServerList};
use net_world::{Sink, World};
use query_cache::QueryCache;
use resolv_options::Options;
use run_end::{Ended, LoopEnd};
use std::alloc::Global;
use tool_line::Exit;

/// The port of the server (RFC 1035, section 4.2).
const DNS_PORT: u16 = 53;

/// For how long an answer is kept at most: a day, in seconds.
const MOST_SECONDS: u32 = 86_400;

/// Reads the words, brings their names to their answers, and puts the page: at most `turns` turns over the network.
pub fn run<W: World, K: Sink>(
    alloc: Global,
    words: &[&str],
    world: &mut W,
    sink: &mut K,
    turns: u64,
) -> Ended
    // Words that ask nothing are refused, and the network isn't called.
    ensures refused { AreRefused (map (λ word. word.now) words.now)
        → (world.new ≡ world.old) × IsUnasked result
        (record { bytes = K.bytes sink.old; faults = K.faults sink.old; puts = K.puts sink.old })
        (record { bytes = K.bytes sink.new; faults = K.faults sink.new; puts = K.puts sink.new }) }

    // Words that ask something: the run keeps its promise, unless memory was wanting before it began.
    ensures promise { ForWords (map (λ word. word.now) words.now) (λ asked. IsRun asked turns result
        (outside (W.log world.old) (W.wait_faults world.old) (K.bytes sink.old) (K.faults sink.old) (K.puts sink.old))
        (outside (W.log world.new) (W.wait_faults world.new) (K.bytes sink.new) (K.faults sink.new) (K.puts sink.new))) }

    // The network is the one that was lent.
    ensures origin { W.origin world.new ≡ W.origin world.old }
{
    match cache_ask(words) {
        Some(asked) => ask(alloc, asked, world, sink, turns),
        None => leave_unasked(alloc, sink),
    }
}

/// Ends a run whose words ask nothing.
fn leave_unasked<K: Sink>(alloc: Global, sink: &mut K) -> Ended
    ensures { IsUnasked result
        (record { bytes = K.bytes sink.old; faults = K.faults sink.old; puts = K.puts sink.old })
        (record { bytes = K.bytes sink.new; faults = K.faults sink.new; puts = K.puts sink.new }) }
{
    let status = put_line(sink, Exit::Usage);
    Ended::early(alloc, status)
}

/// The options of the channel: the plain ones, with this server.
fn options_for(alloc: Global, server: Addr) -> Result<Options, NoMemory>
    ensures { IfOk result (λ options. options ≡ meaning.options_for server) }
{
    let mut options = Options::plain(alloc)?;
    let server = ServerAddr {
        address: server,
        port: DNS_PORT,
    };
    options.set_servers(ServerList::of(alloc, &[server])?);
    Ok(options)
}

/// An empty page, and a cache with this room.
fn unshown(alloc: Global, room: u32) -> Result<Shown, NoMemory>
    requires some { 1 ≤ room }
    requires few { room ≤ 65536 }
    ensures { IfOk result (λ shown. (shown.cache ≡ new_cache room most_seconds) × (shown.text.items ≡ [])
        × (shown.good ≡ true)) }
{
    Ok(Shown {
        cache: QueryCache::make(alloc, room as u64, MOST_SECONDS)?,
        text: Vec::new(alloc),
        good: true,
    })
}

/// A channel with this server, and a session that has told the network the server.
fn begin<W: World>(
    alloc: Global,
    server: Addr,
    turns: u64,
    world: &mut W,
) -> Result<Asker, NoMemory>
    ensures begins { Begins server turns result (W.log world.old) (W.log world.new) }
    ensures waits { W.wait_faults world.new ≡ W.wait_faults world.old }
    ensures origin { W.origin world.new ≡ W.origin world.old }
{
    let options = options_for(alloc, server)?;
    let session = Session::make(alloc, world, &options)?;
    let alone = Alone::make(alloc, options, Hosts::empty(alloc))?;
    Ok(Asker {
        session,
        alone,
        calls: Calls::new(),
        left: turns,
    })
}

/// Asks for the names over a channel of their server, and puts the page.
fn ask<W: World, K: Sink>(
    alloc: Global,
    asked: CacheAsk<'_>,
    world: &mut W,
    sink: &mut K,
    turns: u64,
) -> Ended
    requires some { 1 ≤ asked.room }
    requires few { asked.room ≤ 65536 }
    ensures promise { IsRun (asked_of asked.entry) turns result
        (outside (W.log world.old) (W.wait_faults world.old) (K.bytes sink.old) (K.faults sink.old) (K.puts sink.old))
        (outside (W.log world.new) (W.wait_faults world.new) (K.bytes sink.new) (K.faults sink.new) (K.puts sink.new)) }
    ensures origin { W.origin world.new ≡ W.origin world.old }
{
    let Ok(mut shown) = unshown(alloc, asked.room) else {
        return Ended::early(alloc, Exit::OutOfMemory.number());
    };
    // A channel is given up by `close` in every case.
    let Ok(mut asker) = begin(alloc, asked.server, turns, world) else {
        return Ended::early(alloc, Exit::OutOfMemory.number());
    };
    let loop_end = ask_all(alloc, &mut asker, &mut shown, world, asked.names);
    let Asker {
        session: _session,
        mut alone,
        mut calls,
        left: _left,
    } = asker;
    close(&mut alone, &mut calls);
    let end = end_of(loop_end, shown.good);
    let status = tell(shown.text.as_slice(), end, sink);
    Ended {
        status,
        journal: alone.close().into_journal(),
        calls,
    }
}

/// How a run came to its end whose names were brought so far.
fn end_of(loop_end: Result<LoopEnd, NoMemory>, good: bool) -> Exit
    ensures { result ≡ end_by loop_end good }
{
    match loop_end {
        Ok(LoopEnd::Completed) => { if good { Exit::Success } else { Exit::Failure } }
        Ok(LoopEnd::WaitFault) => Exit::WaitFault,
        Ok(LoopEnd::Stalled) => Exit::Stalled,
        Err(NoMemory) => Exit::OutOfMemory,
    }
}
