//! What a request is answered at once, without a query.

ghost use Rattle.std.specs.Prelude.{◌≡◌, None, IfOk};
ghost use Rattle.channel_model.specs.AtOnce.{at_once as at_once_of, unless_asked, literal as literal_answer};
ghost use Rattle.channel_model.specs.Questions.{name_of_text};
ghost use Rattle.channel_model.specs.Setting.{Setting};
ghost use Rattle.addr_lookup.specs.Channels.{set_to};
ghost use Rattle.addr_lookup.specs.Findings.{answer_of};

use crate::building::{bare, good};
use crate::finding::Finding;
use crate::ordering::ordered;
use crate::searching::{asked_name, host_finding};
use chan_types::{Addr, AddrList, Answer, Family, Name, NoMemory, Spec, Status};
use hosts_file::Hosts;
use net_addr::{allows, read};
use resolv_options::Options;
use std::alloc::Global;

/// The answer that a request gets at its Accept, without a query, or none where its names are to be asked.
pub fn at_once(
    alloc: Global,
    spec: &Spec,
    number: u64,
    options: &Options,
    hosts: &Hosts,
) -> Result<Option<Answer>, NoMemory>
    ensures { IfOk result (λ answer. answer ≡ at_once_of (set_to options.now hosts.now) number spec.now) }
{
    match spec {
        Spec::Query { name, .. } => of_name(alloc, name.as_slice(), number),
        Spec::Search { name, .. } => of_name(alloc, name.as_slice(), number),
        Spec::Address {
            host,
            family,
            nosort,
        } => match read(host.as_slice()) {
            Some(address) => Ok(Some(literal(alloc, number, *family, address)?)),
            None => {
                let finding = host_finding(alloc, host.as_slice(), *family, options, hosts)?;
                answer_for(alloc, finding, number, options, *nosort)
            }
        },
        Spec::Reverse { .. } => Ok(None),
    }
}

/// The answer for a name of which nothing is known but whether it may be asked.
fn of_name(alloc: Global, text: &[u8], number: u64) -> Result<Option<Answer>, NoMemory>
    ensures { IfOk result (λ answer. answer ≡ unless_asked number (λ read. None) (name_of_text text.now)) }
{
    Ok(match asked_name(alloc, text)? {
        Ok(_) => None,
        Err(status) => Some(bare(alloc, number, status)),
    })
}

/// The answer for a host that is an address: itself, where the family has it.
fn literal(alloc: Global, number: u64, family: Family, address: Addr) -> Result<Answer, NoMemory>
    ensures { IfOk result (λ answer. answer ≡ literal_answer number family address) }
{
    if !allows(family, address) {
        return Ok(bare(alloc, number, Status::NoData));
    }
    let addresses = AddrList::of(alloc, &[address])?;
    Ok(good(alloc, number, addresses, Name::root(alloc)))
}

/// The answer to which a finding of a host comes.
fn answer_for(
    alloc: Global,
    finding: Finding,
    number: u64,
    options: &Options,
    nosort: bool,
) -> Result<Option<Answer>, NoMemory>
    ensures { IfOk result (λ answer. (channel : Setting) → channel.options ≡ options.now
        → answer ≡ answer_of channel number nosort finding) }
{
    Ok(match finding {
        Finding::Nothing => None,
        Finding::Ended(status) => Some(bare(alloc, number, status)),
        Finding::Host(addresses, canonical) => {
            let addresses = ordered(alloc, addresses, options, nosort)?;
            Some(good(alloc, number, addresses, canonical))
        }
    })
}
