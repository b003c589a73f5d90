//! What a command line asks of ahost.

ghost use Rattle.std.specs.Prelude.{◌≡◌, ◌≤◌, Some, None, Err, IfOk, IfSome, OnErr, map, option_map};
ghost use Rattle.chan_types.specs.declared.spec.Spec.TheVariants.{Address};
ghost use Rattle.tool_line.specs.Ahost as meaning;
ghost use Rattle.tool_line.specs.Parser.{said};
ghost use Rattle.tool_line.specs.declared.ahost.AhostAsk.{AhostAsk as Asked};

use crate::fault::WordFault;
use crate::files::{HOSTS_PATH, RESOLV_PATH};
use crate::given::{addresses_if, number_if, number_or, path_or};
use crate::settings::{DNS_PORT, Settings, servers_at};
use crate::values::family;
use crate::words::{Choice, Words, read_words};
use chan_types::{Bytes, Orders, Spec};
use item_list::{ItemList, NoMemory};
use net_addr::{AddrList, Family, ServerList};
use std::alloc::Global;

/// The options of ahost.
static OPTIONS: [Choice<'static>; 21] = [
    Choice {
        name: "server",
        takes_value: true,
    },
    Choice {
        name: "port",
        takes_value: true,
    },
    Choice {
        name: "resolv",
        takes_value: true,
    },
    Choice {
        name: "timeout",
        takes_value: true,
    },
    Choice {
        name: "tries",
        takes_value: true,
    },
    Choice {
        name: "tcp",
        takes_value: false,
    },
    Choice {
        name: "no-edns",
        takes_value: false,
    },
    Choice {
        name: "mix",
        takes_value: false,
    },
    Choice {
        name: "hosts",
        takes_value: true,
    },
    Choice {
        name: "family",
        takes_value: true,
    },
    Choice {
        name: "sources",
        takes_value: true,
    },
    Choice {
        name: "no-sort",
        takes_value: false,
    },
    Choice {
        name: "no-search",
        takes_value: false,
    },
    Choice {
        name: "follow",
        takes_value: false,
    },
    Choice {
        name: "first",
        takes_value: false,
    },
    Choice {
        name: "quit",
        takes_value: false,
    },
    Choice {
        name: "workers",
        takes_value: true,
    },
    Choice {
        name: "load",
        takes_value: true,
    },
    Choice {
        name: "seed",
        takes_value: true,
    },
    Choice {
        name: "then",
        takes_value: true,
    },
    Choice {
        name: "journal",
        takes_value: false,
    },
];

/// A list of requests.
pub type SpecList = ItemList<Spec>;

/// A load: how many names are asked for, and the seed of what is lost.
#[derive(Clone, Copy, Debug, PartialEq, Eq)]
pub struct Load {
    pub names: u32,
    pub seed: u32,
}

/// What a command line asks of ahost.
#[derive(Drop)]
pub struct AhostAsk {
    /// The path of resolv.conf.
    pub resolv: String,
    /// The path of the hosts file.
    pub hosts: String,
    /// What the words set of the channel's options.
    pub settings: Settings,
    /// The requests, one for each name. With a load there is none.
    pub specs: SpecList,
    /// What callbacks may command.
    pub orders: Orders,
    /// How many threads deliver beside the first.
    pub workers: u32,
    /// The load that is asked for in place of names.
    pub load: Option<Load>,
    /// The servers that are set while requests are pending.
    pub later: Option<ServerList>,
    /// Whether the book of the run stands in place of the page.
    pub journal: bool,
}

/// What the words ask of ahost. They are refused where they ask nothing.
pub fn ahost_ask<'a>(alloc: Global, words: &'a [&'a str]) -> Result<AhostAsk, WordFault>
    ensures read { IfOk result (meaning.AhostAsks (map (λ word. word.now) words.now)) }
    ensures refused { result ≡ Err WordFault.Refused → (ask : Asked)
        → meaning.AhostAsks (map (λ word. word.now) words.now) ask → ⊥ }
{
    match read_words(alloc, OPTIONS.as_slice(), words) {
        Ok(read) => ask_in(alloc, &read),
        Err(fault) => Err(fault),
    }
}

/// What is asked, by what is said under the names of the options.
fn ask_in(alloc: Global, words: &Words) -> Result<AhostAsk, WordFault>
    ensures read { IfOk result (meaning.IsSaid (said words.now)) }
    ensures refused { result ≡ Err WordFault.Refused → (ask : Asked) → meaning.IsSaid (said words.now) ask → ⊥ }
{
    let resolv = path_or(alloc, words, "resolv", RESOLV_PATH)?;
    let hosts = path_or(alloc, words, "hosts", HOSTS_PATH)?;
    let settings = Settings::read(alloc, words)?;
    let specs = specs_in(alloc, words)?;
    let workers = number_or(words, "workers", 0, 16, 0)?;
    let load = load_in(words)?;
    let later = later_in(alloc, words)?;
    let journal = journal_in(words)?;
    Ok(AhostAsk {
        resolv,
        hosts,
        settings,
        specs,
        orders: orders_in(words),
        workers,
        load,
        later,
        journal,
    })
}

/// The requests that are asked for.
fn specs_in(alloc: Global, words: &Words) -> Result<SpecList, WordFault>
    ensures read { IfOk result (λ specs. meaning.specs_in (said words.now) ≡ Some specs) }
    ensures refused { result ≡ Err WordFault.Refused → meaning.specs_in (said words.now) ≡ None }
{
    let family = family_in(words)?;
    specs_for(
        alloc,
        words.has("load"),
        family,
        words.has("no-sort"),
        words.plain(),
    )
}

/// The family that the words name.
fn family_in(words: &Words) -> Result<Family, WordFault>
    ensures read { IfOk result (λ family. meaning.family_under (said words.now) ≡ Some family) }
    ensures refused { OnErr result (meaning.family_under (said words.now) ≡ None) }
{
    match words.value("family") {
        Some(word) => match family(word) {
            Some(family) => Ok(family),
            None => Err(WordFault::Refused),
        },
        None => Ok(Family::Any),
    }
}

/// The requests for these hosts.
fn specs_for(
    alloc: Global,
    loads: bool,
    family: Family,
    nosort: bool,
    hosts: Option<&[&str]>,
) -> Result<SpecList, WordFault>
    ensures read { IfOk result
        (λ specs. meaning.specs_for loads family nosort
        (option_map (λ hosts. map (λ host. host.now) hosts.now) hosts.entry) ≡ Some specs) }
    ensures refused { result ≡ Err WordFault.Refused
        → meaning.specs_for loads family nosort
        (option_map (λ hosts. map (λ host. host.now) hosts.now) hosts.entry) ≡ None }
{
    match hosts {
        Some(hosts) => {
            if loads {
                return Err(WordFault::Refused);
            }
            let specs = address_specs(alloc, family, nosort, hosts)?;
            Ok(specs)
        }
        None => {
            if loads {
                Ok(SpecList::new(alloc))
            } else {
                Err(WordFault::Refused)
            }
        }
    }
}

/// The requests for the addresses of these hosts.
fn address_specs(
    alloc: Global,
    family: Family,
    nosort: bool,
    hosts: &[&str],
) -> Result<SpecList, NoMemory>
    ensures { IfOk result (λ specs. specs ≡ map (λ host. Address host.now family nosort) hosts.now) }
{
    let mut specs = Vec::with_capacity(alloc, hosts.len())?;
    for host in hosts {
        specs.push(Spec::Address {
            host: Bytes::of(alloc, host.as_bytes())?,
            family,
            nosort,
        })?;
    }
    Ok(SpecList::from_vec(specs))
}

/// The orders that the words give.
fn orders_in(words: &Words) -> Orders
    ensures { result ≡ meaning.orders_in (said words.now) }
{
    Orders {
        follow: words.has("follow"),
        first: words.has("first"),
        quit: words.has("quit"),
    }
}

/// The load that is asked for.
fn load_in(words: &Words) -> Result<Option<Load>, WordFault>
    ensures read { IfOk result (λ load. meaning.load_in (said words.now) ≡ Some load) }
    ensures refused { OnErr result (meaning.load_in (said words.now) ≡ None) }
{
    let names = number_if(words, "load", 1, 4096)?;
    let seed = number_or(words, "seed", 0, 65535, 0)?;
    match names {
        Some(names) => Ok(Some(Load { names, seed })),
        None => Ok(None),
    }
}

/// The servers that are set later.
fn later_in(alloc: Global, words: &Words) -> Result<Option<ServerList>, WordFault>
    ensures read { IfOk result (λ later. meaning.later_in (said words.now) ≡ Some later) }
    ensures refused { result ≡ Err WordFault.Refused → meaning.later_in (said words.now) ≡ None }
{
    let port = number_if(words, "port", 1, 65535)?;
    let addresses = addresses_if(alloc, words, "then")?;
    later_for(alloc, words.has("load"), port, addresses)
}

/// The servers at these addresses, where there is no load.
fn later_for(
    alloc: Global,
    loads: bool,
    port: Option<u32>,
    addresses: Option<AddrList>,
) -> Result<Option<ServerList>, WordFault>
    requires { IfSome port (λ port. port ≤ 65535) }
    ensures read { IfOk result (λ later. meaning.later_for loads port addresses ≡ Some later) }
    ensures refused { result ≡ Err WordFault.Refused → meaning.later_for loads port addresses ≡ None }
{
    match addresses {
        Some(addresses) => {
            if loads {
                return Err(WordFault::Refused);
            }
            let servers = servers_at(alloc, port.unwrap_or(DNS_PORT), addresses.as_slice())?;
            Ok(Some(servers))
        }
        None => Ok(None),
    }
}

/// Whether the book of the run is asked for.
fn journal_in(words: &Words) -> Result<bool, WordFault>
    ensures read { IfOk result (λ journal. meaning.journal_in (said words.now) ≡ Some journal) }
    ensures refused { OnErr result (meaning.journal_in (said words.now) ≡ None) }
{
    journal_for(words.has("load"), words.has("journal"))
}

/// Whether the book is asked for: with a load there is none.
fn journal_for(loads: bool, journal: bool) -> Result<bool, WordFault>
    ensures read { IfOk result (λ found. meaning.journal_for loads journal ≡ Some found) }
    ensures refused { OnErr result (meaning.journal_for loads journal ≡ None) }
{
    if loads && journal {
        return Err(WordFault::Refused);
    }
    Ok(journal)
}
