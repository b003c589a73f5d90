//! The zone of a load: hosts numbered from 0, of which one in four is missing.

ghost use Rattle.std.specs.Prelude.{◌≡◌, ◌≤◌, ◌<◌, ◌+◌, map, IfOk};
ghost use Rattle.dns_message.specs.Name.{IsName};
ghost use Rattle.test_nameserver.specs.Load as meaning;

use crate::zone::Zone;
use dns_message::numbers::{CLASS_IN, KIND_A};
use dns_message::{Name, NameFault, Record};
use item_list::{Bytes, NoMemory};
use std::alloc::Global;

/// The address of the host with number 0, 10.0.0.0 (RFC 1918, section 3).
const FIRST_ADDRESS: u32 = 0x0a00_0000;

/// How long a host's address may be kept, in seconds (this project's profile).
const TTL: u32 = 60;

/// The name of labels that make one.
fn name_of(alloc: Global, labels: &[&[u8]]) -> Result<Name, NoMemory>
    requires { IsName (map (λ label. label.now) labels.now) }
    ensures { IfOk result (λ name. name ≡ map (λ label. label.now) labels.now) }
{
    match Name::from_labels(alloc, labels) {
        Ok(name) => Ok(name),
        Err(NameFault::NoMemory) => Err(NoMemory),
        Err(_) => unreachable!(),
    }
}

/// The name of the host with this number.
fn host_name(alloc: Global, number: u32) -> Result<Name, NoMemory>
    ensures { IfOk result (λ name. name ≡ meaning.host_name number) }
{
    let mut buffer = itoa::Buffer::new();
    let digits = buffer.format(number).as_bytes();
    let mut label = Vec::with_capacity(alloc, digits.len() + 1)?;
    label.push(b'h')?;
    label.extend_from_slice(digits)?;
    name_of(alloc, &[label.as_slice(), b"load", b"test"])
}

/// The record of the host with this number.
fn host_record(alloc: Global, number: u32) -> Result<Record, NoMemory>
    requires { number < 4096 }
    ensures { IfOk result (λ item. item ≡ meaning.host_record number) }
{
    let address = FIRST_ADDRESS + number;
    Ok(Record {
        name: host_name(alloc, number)?,
        kind: KIND_A,
        class: CLASS_IN,
        ttl: TTL,
        rdata: Bytes::of(alloc, &address.to_be_bytes())?,
    })
}

impl Zone {
    #[tactic(auto, using(crate::proofs::LoadLemmas::load_more))]
    /// The zone of so many hosts: `h0.load.test.` with the address 10.0.0.0, and so on; of four the last has no record.
    pub fn load(alloc: Global, count: u64) -> Result<Zone, NoMemory>
        requires { count ≤ 4096 }
        ensures { IfOk result (λ zone. zone ≡ meaning.load_zone count) }
    {
        let mut zone = Zone::empty(alloc);
        for number in 0..count as u32 {
            if number % 4 != 3 {
                zone = zone.with(alloc, host_record(alloc, number)?)?;
            }
        }
        Ok(zone)
    }
}
