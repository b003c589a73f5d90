//! Values of the code's types are in the ranges of the format. Each function takes no memory and answers nothing: what it
//! ensures is what the types keep.

ghost use Rattle.std.specs.Prelude.{◌<◌, ◌^◌};
ghost use Rattle.std.specs.List.{AllByRecursion};
ghost use Rattle.hex.specs.Hex.{IsBytes};
ghost use Rattle.net_addr.specs.Addr.{IsAddr};
ghost use Rattle.chan_types.specs.Scripts.{deed_of, inside_of, moves_of};
ghost use Rattle.journal_text.specs.Fits.{FitsEntry, FitsKey, FitsMix, FitsMoves, FitsName, FitsPlan, FitsServer, FitsSpec, IsBook};
ghost use Rattle.journal_laws.specs.Scripts.{FitsAct};

use chan_types::{Act, Entry, Journal, Script, ServerKey, Spec, Step, What};
use dns_message::Name;
use net_addr::{Addr, ServerAddr};
use resolv_options::Options;

/// A run of these options, this hosts file and this journal has a text.
pub(crate) fn run_fits(options: &Options, hosts: &[u8], journal: &Journal)
    ensures { IsBook (record { options = options.now; hosts = hosts.now; journal = journal.now }) }
{
    let _tries = options.tries();
    servers_fit(options.servers().as_slice());
    domains_fit(options.domains().as_slice());
    sources_fit(options.sources().as_slice());
    bytes_fit(hosts);
    entries_fit(journal.entries());
}

/// Bytes are numbers below 256.
fn bytes_fit(bytes: &[u8])
    ensures { IsBytes bytes.now }
{}

/// A name is one, of bytes.
fn name_fits(name: &Name)
    ensures { FitsName name.now }
{
    bytes_fit(name.as_wire());
}

/// An address is in its family's range.
fn address_fits(address: Addr)
    ensures { IsAddr address }
{
    match address {
        Addr::V4(_) => {}
        Addr::V6(_) => {}
    }
}

/// So is a server's, and its port has 16 bits.
fn server_fits(server: ServerAddr)
    ensures { FitsServer server }
{
    address_fits(server.address);
}

/// So it is of each server.
fn servers_fit(servers: &[ServerAddr])
    ensures { AllByRecursion FitsServer servers.now }
{
    if let [first, rest @ ..] = servers {
        server_fits(*first);
        servers_fit(rest);
    }
}

/// So it is of each name.
fn domains_fit(domains: &[Name])
    ensures { AllByRecursion FitsName domains.now }
{
    if let [first, rest @ ..] = domains {
        name_fits(first);
        domains_fit(rest);
    }
}

/// So it is of each address.
fn sources_fit(sources: &[Addr])
    ensures { AllByRecursion IsAddr sources.now }
{
    if let [first, rest @ ..] = sources {
        address_fits(*first);
        sources_fit(rest);
    }
}

/// What is asked has bytes, numbers of 16 bits and an address.
fn spec_fits(spec: &Spec)
    ensures { FitsSpec spec.now }
{
    match spec {
        Spec::Query { name, kind, class } => {
            let (_kind, _class) = (*kind, *class);
            bytes_fit(name.as_slice())
        }
        Spec::Search { name, kind, class } => {
            let (_kind, _class) = (*kind, *class);
            bytes_fit(name.as_slice())
        }
        Spec::Address { host, .. } => bytes_fit(host.as_slice()),
        Spec::Reverse { address } => address_fits(*address),
    }
}

/// A script has a tag of 64 bits and at most eight steps, nested at most four deep, and so have the scripts inside it.
#[cycle(fits)]
fn script_fits(script: &Script)
    ensures { FitsPlan script.now }
{
    let _tag = script.tag();
    let _depth = script.depth();
    steps_fit(script.steps());
}

/// So it is of each step.
#[cycle(fits)]
fn steps_fit(steps: &[Step])
    ensures { FitsMoves (moves_of steps.now) }
{
    if let [first, rest @ ..] = steps {
        act_fits(&first.act);
        steps_fit(rest);
    }
}

/// What a step asks has bytes, numbers and an address, and the script inside it is one.
#[cycle(fits)]
fn act_fits(act: &Act)
    ensures { FitsAct (deed_of act.now) (inside_of act.now) }
{
    match act {
        Act::Ask(spec, script) => {
            spec_fits(spec);
            script_fits(script);
        }
        Act::Reverse(script) => script_fits(script),
        Act::Cancel | Act::Destroy => {}
    }
}

/// A server's key has 32 bits.
fn key_fits(server: ServerKey)
    ensures { FitsKey server }
{
    server_fits(server.address);
}

/// So it is of each server of a list.
fn keys_fit(list: &[ServerKey])
    ensures { AllByRecursion FitsKey list.now }
{
    if let [first, rest @ ..] = list {
        key_fits(*first);
        keys_fit(rest);
    }
}

/// The bits of a mix are 16.
fn mix_fits(mix: Option<u16>)
    ensures { FitsMix mix }
{
    if let Some(_bits) = mix {}
}

/// An entry has numbers in their ranges.
fn entry_fits(entry: &Entry)
    ensures { FitsEntry entry.now }
{
    let (_seat, _by) = (entry.seat, entry.by);
    match &entry.what {
        What::Accept {
            number,
            spec,
            script,
        } => {
            let _number = *number;
            spec_fits(spec);
            script_fits(script);
        }
        What::Cancel | What::Destroy => {}
        What::Take { number } => {
            let _number = *number;
        }
        What::Start {
            number,
            leg,
            server,
            link,
            id,
            mix,
            moment,
        } => {
            let _fields = (*number, *leg, *server, *link, *id, *moment);
            mix_fits(*mix);
        }
        What::Arrive {
            server,
            link,
            bytes,
        } => {
            let _fields = (*server, *link);
            bytes_fit(bytes.as_slice());
        }
        What::Expire {
            number,
            leg,
            moment,
        } => {
            let _fields = (*number, *leg, *moment);
        }
        What::Fault {
            server,
            link,
            moment,
        } => {
            let _fields = (*server, *link, *moment);
        }
        What::Servers { list } => keys_fit(list.as_slice()),
    }
}

/// So it is of each entry.
fn entries_fit(entries: &[Entry])
    ensures { AllByRecursion FitsEntry entries.now }
{
    if let [first, rest @ ..] = entries {
        entry_fits(first);
        entries_fit(rest);
    }
}
