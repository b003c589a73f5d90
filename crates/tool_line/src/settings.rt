//! What the words of a command line set of a channel's options.

ghost use Rattle.std.specs.Prelude.{◌≡◌, ◌≤◌, None, Err, IfOk, OnOk, OnErr, IfSome, unwrap_or};
ghost use Rattle.tool_line.specs.Parser.{said};
ghost use Rattle.tool_line.specs.Settings as meaning;

use crate::fault::WordFault;
use crate::given::{addresses_if, number_if};
use crate::switches::{Switches, flags_with, switches_in};
use crate::words::Words;
use item_list::NoMemory;
use net_addr::{Addr, AddrList, ServerAddr, ServerList};
use resolv_options::Options;
use std::alloc::Global;
use std::marker::Model;

/// The port of a name server (RFC 1035, section 4.2).
pub(crate) const DNS_PORT: u32 = 53;

/// What the words set of a channel's options, within their limits. Contracts see it as a record of values.
#[derive(Debug, Drop)]
pub struct Settings {
    servers: Option<AddrList>,
    port: Option<u32>,
    timeout: Option<u32>,
    tries: Option<u32>,
    sources: Option<AddrList>,
    switches: Switches,
}

impl Model for Settings {
    ghost use Rattle.tool_line.specs.Settings.{SettingValues, AreWithin};

    ghost Value = { SettingValues };

    ghost use Rattle.tool_line.specs.SettingFields.{values_of};

    ghost view = { values_of };

    ghost invariant = { λ fields. AreWithin (values_of fields) };
}

impl Settings {
    /// What the words set. They are refused where a value can't be read.
    pub(crate) fn read(alloc: Global, words: &Words) -> Result<Settings, WordFault>
        ensures read { IfOk result (meaning.AreSetBy (said words.now)) }
        ensures refused { result ≡ Err WordFault.Refused → (settings : meaning.SettingValues)
            → meaning.AreSetBy (said words.now) settings → ⊥ }
    {
        let servers = addresses_if(alloc, words, "server")?;
        let port = number_if(words, "port", 1, 65535)?;
        let timeout = number_if(words, "timeout", 1, 60000)?;
        let tries = number_if(words, "tries", 1, 10)?;
        let sources = addresses_if(alloc, words, "sources")?;
        Ok(Settings {
            servers,
            port,
            timeout,
            tries,
            sources,
            switches: switches_in(words),
        })
    }

    /// Puts what the words set in place of what the options were. For want of memory the options stay as they were.
    pub fn apply(self, alloc: Global, options: &mut Options) -> Result<(), NoMemory>
        ensures ok { OnOk result (options.new ≡ meaning.options_with self options.old) }
        ensures err { OnErr result (options.new ≡ options.old) }
    {
        let servers = servers_with(alloc, self.servers, self.port, options.servers().as_slice())?;
        let timeout = self.timeout.unwrap_or(options.timeout());
        let tries = self.tries.unwrap_or(u32::from(options.tries()));
        let flags = flags_with(self.switches, options.flags());
        options.set_servers(servers);
        options.set_numbers(timeout, tries as u8);
        options.set_flags(flags);
        if let Some(sources) = self.sources {
            options.set_sources(sources);
        }
        Ok(())
    }
}

/// The servers that are asked: those of the words in place of the others, and all on the words' port, if they name one.
fn servers_with(
    alloc: Global,
    addresses: Option<AddrList>,
    port: Option<u32>,
    others: &[ServerAddr],
) -> Result<ServerList, NoMemory>
    requires { IfSome port (λ port. port ≤ 65535) }
    ensures { IfOk result (λ servers. servers ≡ meaning.servers_with addresses port others.now) }
{
    match addresses {
        Some(addresses) => servers_at(alloc, port.unwrap_or(DNS_PORT), addresses.as_slice()),
        None => servers_moved(alloc, port, others),
    }
}

/// The servers at these addresses, all on this port.
pub(crate) fn servers_at(
    alloc: Global,
    port: u32,
    addresses: &[Addr],
) -> Result<ServerList, NoMemory>
    requires { port ≤ 65535 }
    ensures { IfOk result (λ servers. servers ≡ meaning.servers_at port addresses.now) }
{
    let mut servers = Vec::with_capacity(alloc, addresses.len())?;
    for address in addresses {
        servers.push(ServerAddr {
            address: *address,
            port: port as u16,
        })?;
    }
    Ok(ServerList::from_vec(servers))
}

/// These servers, all on this port, if there is one.
fn servers_moved(
    alloc: Global,
    port: Option<u32>,
    others: &[ServerAddr],
) -> Result<ServerList, NoMemory>
    requires { IfSome port (λ port. port ≤ 65535) }
    ensures { IfOk result (λ servers. servers ≡ meaning.servers_with None port others.now) }
{
    let mut servers = Vec::with_capacity(alloc, others.len())?;
    for server in others {
        servers.push(moved(*server, port))?;
    }
    Ok(ServerList::from_vec(servers))
}

/// The server, on this port, if there is one.
fn moved(server: ServerAddr, port: Option<u32>) -> ServerAddr
    requires { IfSome port (λ port. port ≤ 65535) }
    ensures { result ≡ record { address = server.address; port = unwrap_or port server.port } }
{
    match port {
        Some(port) => ServerAddr {
            address: server.address,
            port: port as u16,
        },
        None => server,
    }
}
