//! Looking for a host's addresses without a query.

ghost use Rattle.std.specs.Prelude.{◌≡◌, ℕ, Bool, Option, IfOk, Some, MatchResult, [], unwrap_or};
ghost use Rattle.chan_types.specs.declared.answer.Answer.{Answer as AnswerOf};
ghost use Rattle.dns_message.specs.declared.name.NameText.{NameText as TextOf};
ghost use Rattle.dns_message.specs.Name.{last_is as last_is_of};
ghost use Rattle.channel_model.specs.AtOnce.{unless_asked, known_host, loopbacks as loopbacks_of, listed as listed_of, asks_hosts as asks_hosts_of, asks_servers as asks_servers_of};
ghost use Rattle.channel_model.specs.Merge.{bare as bare_answer};
ghost use Rattle.hosts_file.specs.Hosts.{canonical_of};
ghost use Rattle.channel_model.specs.Questions.{name_of_text};
ghost use Rattle.addr_lookup.specs.Channels.{set_to};
ghost use Rattle.addr_lookup.specs.Findings.{answer_of};

use crate::finding::Finding;
use chan_types::{Addr, AddrList, Family, Name, NoMemory, Status};
use dns_message::{NameFault, NameText};
use hosts_file::Hosts;
use resolv_options::{Lookups, Options};
use std::alloc::Global;

/// IPv4's address of the host itself, 127.0.0.1 (RFC 1122, section 3.2.1.3).
const LOOPBACK_V4: Addr = Addr::V4(0x7f00_0001);

/// IPv6's address of the host itself, ::1 (RFC 4291, section 2.5.3).
const LOOPBACK_V6: Addr = Addr::V6(1);

/// What is known of a host, given as a text that is no address.
pub(crate) fn host_finding(
    alloc: Global,
    text: &[u8],
    family: Family,
    options: &Options,
    hosts: &Hosts,
) -> Result<Finding, NoMemory>
    ensures { IfOk result (λ finding. (request : ℕ) (nosort : Bool)
        → let channel = set_to options.now hosts.now in
        unless_asked request (known_host channel request family nosort) (name_of_text text.now)
        ≡ answer_of channel request nosort finding) }
{
    match asked_name(alloc, text)? {
        Ok(read) => name_finding(alloc, read.name, family, options, hosts),
        Err(status) => Ok(Finding::Ended(status)),
    }
}

/// The name that a text is, if it may be asked, or the status of the answer in its place: a text that is no name, or a
/// hidden service's name (RFC 7686, section 2).
pub(crate) fn asked_name(alloc: Global, text: &[u8]) -> Result<Result<NameText, Status>, NoMemory>
    ensures { IfOk result (λ asked. MatchResult asked
        (λ read. (request : ℕ) (rules : TextOf → Option AnswerOf)
        → unless_asked request rules (name_of_text text.now) ≡ rules read)
        (λ status. (request : ℕ) (rules : TextOf → Option AnswerOf)
        → unless_asked request rules (name_of_text text.now) ≡ Some (bare_answer request status []))) }
{
    match Name::from_text(alloc, text) {
        Ok(read) => {
            if has_last(&read.name, b"onion") {
                return Ok(Err(Status::NotFound));
            }
            Ok(Ok(read))
        }
        Err(NameFault::NoMemory) => Err(NoMemory),
        Err(_) => Ok(Err(Status::BadName)),
    }
}

/// What is known of a name that may be asked: its addresses in the hosts file, or the host's own below `localhost`; that
/// it isn't found, where no server is asked; or nothing.
fn name_finding(
    alloc: Global,
    name: Name,
    family: Family,
    options: &Options,
    hosts: &Hosts,
) -> Result<Finding, NoMemory>
    ensures { IfOk result (λ finding. (request : ℕ) (nosort : Bool) (read : TextOf)
        → read.name ≡ name → let channel = set_to options.now hosts.now in
        known_host channel request family nosort read ≡ answer_of channel request nosort finding) }
{
    let addresses = listed(alloc, &name, family, options, hosts)?;
    if !addresses.is_empty() {
        let canonical = listed_name(alloc, &name, family, hosts)?;
        return Ok(Finding::Host(addresses, canonical));
    }
    if has_last(&name, b"localhost") {
        return Ok(Finding::Host(loopbacks(alloc, family)?, name));
    }
    if asks_servers(options.lookups()) {
        return Ok(Finding::Nothing);
    }
    Ok(Finding::Ended(Status::NotFound))
}

/// Whether the last label is this one, ignoring ASCII case.
fn has_last(name: &Name, label: &[u8]) -> bool
    ensures { result ≡ last_is_of label.now name.now }
{
    name.last_is(label)
}

/// The addresses that the hosts file gives a name, where it is asked.
fn listed(
    alloc: Global,
    name: &Name,
    family: Family,
    options: &Options,
    hosts: &Hosts,
) -> Result<AddrList, NoMemory>
    ensures { IfOk result (λ addresses. addresses
        ≡ listed_of (set_to options.now hosts.now) name.now family) }
{
    if asks_hosts(options.lookups()) {
        hosts.addresses(alloc, name, family)
    } else {
        Ok(AddrList::new(alloc))
    }
}

/// The name to which the addresses of the hosts file belong.
fn listed_name(alloc: Global, name: &Name, family: Family, hosts: &Hosts) -> Result<Name, NoMemory>
    ensures { IfOk result (λ canonical. canonical ≡ unwrap_or (canonical_of name.now family hosts.now) []) }
{
    Ok(match hosts.canonical(alloc, name, family)? {
        Some(canonical) => canonical,
        None => Name::root(alloc),
    })
}

/// The family's addresses of the host itself (RFC 6761, section 6.3).
fn loopbacks(alloc: Global, family: Family) -> Result<AddrList, NoMemory>
    ensures { IfOk result (λ addresses. addresses ≡ loopbacks_of family) }
{
    match family {
        Family::Any => AddrList::of(alloc, &[LOOPBACK_V4, LOOPBACK_V6]),
        Family::V4 => AddrList::of(alloc, &[LOOPBACK_V4]),
        Family::V6 => AddrList::of(alloc, &[LOOPBACK_V6]),
    }
}

/// Whether the hosts file is asked.
fn asks_hosts(lookups: Lookups) -> bool
    ensures { result ≡ asks_hosts_of lookups }
{
    match lookups {
        Lookups::FilesDns | Lookups::Files => true,
        Lookups::Dns => false,
    }
}

/// Whether the servers are asked.
fn asks_servers(lookups: Lookups) -> bool
    ensures { result ≡ asks_servers_of lookups }
{
    match lookups {
        Lookups::FilesDns | Lookups::Dns => true,
        Lookups::Files => false,
    }
}
