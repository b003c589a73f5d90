//! A run of a load: it asks for so many names over a network in memory of its own, and puts a summary.

ghost use Rattle.std.specs.Prelude.{◌≡◌, All, IfOk, None, map};
ghost use Rattle.resolv_options.specs.Defaults.{plain_values};
ghost use Rattle.test_nameserver.specs.Load.{load_zone};
ghost use Rattle.test_nameserver.specs.Peer.{at_start};
ghost use Rattle.ahost_tool.specs.Loading.{IsLoadRun, IsWithinLimits, host_specs, host_text};
ghost use Rattle.owner_session.specs.Returning.{AreBack, numbers_asked};

use crate::reporting::Report;
use crate::resolving::resolve;
use crate::task::Task;
use chan_types::{Bytes, NoMemory, Orders, Spec};
use completion_ticket::Done;
use hosts_file::Hosts;
use net_addr::Family;
use net_world::Sink;
use owner_session::Requests;
use resolv_options::Options;
use run_end::Ended;
use std::alloc::Global;
use test_nameserver::{PeerWorld, Zone};
use tool_line::{Exit, Load, SpecList};

/// Asks for the names of a load, and puts its summary: at most `turns` turns over a network that is made for it. The bodies
/// come back.
pub(crate) fn load<B: Done + Drop, K: Sink>(
    alloc: Global,
    load: Load,
    bodies: Vec<B>,
    sink: &mut K,
    turns: u64,
) -> (Ended, Vec<B>)
    requires fresh { All (λ body. B.told body ≡ None) bodies.items }
    requires limits { IsWithinLimits load }
    ensures load { IsLoadRun load (map B.plan bodies.items) turns result.0
        (record { bytes = K.bytes sink.old; faults = K.faults sink.old; puts = K.puts sink.old })
        (record { bytes = K.bytes sink.new; faults = K.faults sink.new; puts = K.puts sink.new }) }
    ensures bodies { AreBack B.name B.told B.refusal (numbers_asked result.0.journal) bodies.items result.1.items }
{
    let Ok((options, specs, mut world)) = prepare(alloc, load) else {
        return (Ended::early(alloc, Exit::OutOfMemory.number()), bodies);
    };
    let requests = Requests {
        specs: specs.into_vec(),
        bodies,
        orders: Orders {
            follow: false,
            first: false,
            quit: false,
        },
        later: None,
    };
    let task = Task {
        requests,
        report: Report::Summary(load),
    };
    let run = resolve(
        alloc,
        task,
        options,
        Hosts::empty(alloc),
        &mut world,
        sink,
        turns,
    );
    // What the network has told is a log of its zone and its seed: this is said by `log`.
    let _ = world.log();
    run
}

/// The options of a load's channel, its requests, and its network in memory, of the load's zone and seed, which has told
/// nothing yet.
pub fn prepare(alloc: Global, load: Load) -> Result<(Options, SpecList, PeerWorld), NoMemory>
    requires { IsWithinLimits load }
    ensures { IfOk result (λ made. (made.0 ≡ plain_values) × (made.1 ≡ host_specs load.names)
        × (made.2 ≡ at_start (load_zone load.names) load.seed)) }
{
    let options = Options::plain(alloc)?;
    let specs = host_specs(alloc, load.names)?;
    let zone = Zone::load(alloc, u64::from(load.names))?;
    let world = PeerWorld::make(alloc, zone, load.seed as u16)?;
    Ok((options, specs, world))
}

/// The requests for so many hosts.
#[tactic(auto, using(crate::proofs::LoadingLemmas::specs_more))]
fn host_specs(alloc: Global, count: u32) -> Result<SpecList, NoMemory>
    ensures { IfOk result (λ specs. specs ≡ host_specs count) }
{
    let mut specs = Vec::with_capacity(alloc, count as usize)?;
    for number in 0..count {
        specs.push(Spec::Address {
            host: host_text(alloc, number)?,
            family: Family::V4,
            nosort: true,
        })?;
    }
    Ok(SpecList::from_vec(specs))
}

/// The name of the host with this number, as it is asked for.
fn host_text(alloc: Global, number: u32) -> Result<Bytes, NoMemory>
    ensures { IfOk result (λ text. text ≡ host_text number) }
{
    let mut buffer = itoa::Buffer::new();
    let mut text = Vec::from_slice(alloc, b"h")?;
    text.extend_from_slice(buffer.format(number).as_bytes())?;
    text.extend_from_slice(b".load.test.")?;
    Ok(Bytes::from_vec(text))
}
