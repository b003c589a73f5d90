//! The same queries through a channel, its runner and the real network.

use crate::load::{Load, Spent};
use chan_types::{Quiet, Spec, Status};
use channel_journal::ChannelJournal;
use channel_model::Desk;
use channel_table::Alone;
use event_runner::Runner;
use hosts_file::Hosts;
use item_list::{Bytes, NoMemory};
use net_addr::{Addr, ServerAddr};
use resolv_options::{Flags, Options, ServerList};
use sock_engine::SockWorld;
use std::alloc::Global;
use std::io;
use std::time::{CpuClock, Duration};

/// How many queries were asked, how many of them have ended, and how many of those were answered.
#[derive(Clone, Copy)]
struct Tally {
    asked: u64,
    ended: u64,
    answered: u64,
}

/// How many queries were answered, and the thread's processor time before the first was asked and behind the last.
#[derive(Clone, Copy)]
struct Asked {
    answered: u64,
    begun: Duration,
    ended: Duration,
}

/// Asks the queries of the load, so many of them at once, each tried once. What is timed is the asking, as of the bare
/// loop: the channel is made before, and dropped with its journal, of this kind, behind it, which is timed apart.
pub fn ask<J: ChannelJournal>(rt: HostRuntime, load: &Load) -> io::Result<Spent> {
    let asked = ask_over_network::<J>(rt, load)?;
    let dropped = rt.thread_cpu_time()?;
    Ok(Spent {
        answered: asked.answered,
        nanos: asked.ended.saturating_sub(asked.begun).as_nanos(),
        at_end: dropped.saturating_sub(asked.ended).as_nanos(),
    })
}

/// Asks them over the real network, which is dropped behind them.
fn ask_over_network<J: ChannelJournal>(rt: HostRuntime, load: &Load) -> io::Result<Asked> {
    ask_by_runner::<J>(rt, &mut SockWorld::make(rt).map_err(no_memory)?, load)
}

/// Asks them by a runner of this network.
fn ask_by_runner<J: ChannelJournal>(
    rt: HostRuntime,
    world: &mut SockWorld<HostRuntime>,
    load: &Load,
) -> io::Result<Asked> {
    let options = options_for(rt.alloc(), load.port).map_err(no_memory)?;
    let runner = Runner::make(rt.alloc(), world, &options).map_err(no_memory);
    ask_through_channel::<J>(rt, options, &mut runner?, world, load)
}

/// Asks them through a channel with these options.
fn ask_through_channel<J: ChannelJournal>(
    rt: HostRuntime,
    options: Options,
    runner: &mut Runner,
    world: &mut SockWorld<HostRuntime>,
    load: &Load,
) -> io::Result<Asked> {
    let alloc = rt.alloc();
    let desk = Alone::<Quiet, J>::make(alloc, options, Hosts::empty(alloc)).map_err(no_memory);
    time_asking(rt, &mut desk?, runner, world, load)
}

/// The fault of the program where memory is wanting.
fn no_memory(_: NoMemory) -> io::Error {
    io::ErrorKind::OutOfMemory.into()
}

/// The options: one server at this port, one try of two seconds, and queries without an OPT record.
fn options_for(alloc: Global, port: u16) -> Result<Options, NoMemory> {
    let server = ServerAddr {
        address: Addr::V4(0x7f00_0001),
        port,
    };
    let mut options = Options::plain(alloc)?;
    options.set_servers(ServerList::of(alloc, &[server])?);
    options.set_numbers(2_000, 1);
    let flags = options.flags();
    options.set_flags(Flags {
        edns: false,
        ..flags
    });
    Ok(options)
}

/// Asks them all, and reads the clock before and behind.
fn time_asking<J: ChannelJournal>(
    rt: HostRuntime,
    desk: &mut Alone<Quiet, J>,
    runner: &mut Runner,
    world: &mut SockWorld<HostRuntime>,
    load: &Load,
) -> io::Result<Asked> {
    let begun = rt.thread_cpu_time()?;
    let answered = ask_all(desk, runner, world, rt.alloc(), load).map_err(no_memory)?;
    Ok(Asked {
        answered,
        begun,
        ended: rt.thread_cpu_time()?,
    })
}

/// Asks all, and goes on until the last one has ended. Answers how many were answered.
fn ask_all<J: ChannelJournal>(
    desk: &mut Alone<Quiet, J>,
    runner: &mut Runner,
    world: &mut SockWorld<HostRuntime>,
    alloc: Global,
    load: &Load,
) -> Result<u64, NoMemory> {
    let mut tally = Tally {
        asked: 0,
        ended: 0,
        answered: 0,
    };
    fill(desk, alloc, load, &mut tally)?;
    for _ in 0..u64::MAX {
        if tally.ended >= load.count {
            break;
        }
        let _turned = runner.turn(desk, world)?;
        refill(desk, alloc, load, &mut tally)?;
        let _paused = runner.pause(desk, world, u64::MAX)?;
    }
    Ok(tally.answered)
}

/// Asks as many queries as are in flight at once.
fn fill<J: ChannelJournal>(
    desk: &mut Alone<Quiet, J>,
    alloc: Global,
    load: &Load,
    tally: &mut Tally,
) -> Result<(), NoMemory> {
    for _ in 0..load.window {
        ask_next(desk, alloc, load, tally)?;
    }
    Ok(())
}

/// A further query for each that has its answer, as of the bare loop.
fn refill<J: ChannelJournal>(
    desk: &mut Alone<Quiet, J>,
    alloc: Global,
    load: &Load,
    tally: &mut Tally,
) -> Result<(), NoMemory> {
    for _ in 0..load.window {
        if !take_next(desk, tally) {
            break;
        }
        ask_next(desk, alloc, load, tally)?;
    }
    Ok(())
}

/// Asks the next query, unless all were asked.
fn ask_next<J: ChannelJournal>(
    desk: &mut Alone<Quiet, J>,
    alloc: Global,
    load: &Load,
    tally: &mut Tally,
) -> Result<(), NoMemory> {
    if tally.asked >= load.count {
        return Ok(());
    }
    let spec = query(alloc)?;
    if desk.accept(spec, Quiet::new(alloc)).is_err() {
        return Err(NoMemory);
    }
    tally.asked = tally.asked.saturating_add(1);
    Ok(())
}

/// The addresses of IPv4 of example.com.
fn query(alloc: Global) -> Result<Spec, NoMemory> {
    Ok(Spec::Query {
        name: Bytes::of(alloc, b"example.com")?,
        kind: 1,
        class: 1,
    })
}

/// Takes a ticket, if one is ready, and answers whether one was.
fn take_next<J: ChannelJournal>(desk: &mut Alone<Quiet, J>, tally: &mut Tally) -> bool {
    let Some(ticket) = desk.take() else {
        return false;
    };
    if ticket.answer().status == Status::Success {
        tally.answered = tally.answered.saturating_add(1);
    }
    tally.ended = tally.ended.saturating_add(1);
    true
}
