//! What the rdata of a record says.

ghost use Rattle.std.specs.Prelude.{◌≡◌, ◌≢◌, Some, None, Err, IfOk, IfErr};
ghost use Rattle.dns_message.specs.Validity.{IsWellFormed};
ghost use Rattle.dns_rdata.specs.Parts.{Gives};
ghost use Rattle.dns_rdata.specs.Rdata.{v4_in, v6_in, soa_in, hinfo_in, mx_in, srv_in, data_of, data_in};
ghost use Rattle.dns_rdata.specs.Spelling.{data_bytes};
ghost use Rattle.dns_rdata.specs.declared.fault.RdataFault.TheVariants as rdata_fault;

use crate::data::RecordData;
use crate::fault::RdataFault;
use crate::parts::{name_in, strings_in, whole_name};
use byteorder::{BigEndian, ByteOrder};
use dns_message::numbers::{
    CLASS_IN, KIND_A, KIND_AAAA, KIND_CNAME, KIND_HINFO, KIND_MX, KIND_NS, KIND_OPT, KIND_PTR,
    KIND_SOA, KIND_SRV, KIND_TXT,
};
use dns_message::{Bytes, Record};
use net_addr::Addr;
use std::alloc::Global;

/// What the rdata of a record says. Names in it stand without pointers, as decoded messages have them. A, AAAA and SRV
/// have their form in the class of the Internet alone; in another one they are `Raw`, as types without a form here are.
/// Rdata without the shape of its type and class is told before any memory is taken.
pub fn rdata(alloc: Global, item: &Record) -> Result<RecordData, RdataFault>
    ensures read { IfOk result (λ typed. data_of item.now ≡ Some typed) }
    // Exactly these bytes spell what is read, numbers too.
    ensures spelled { IfOk result (λ typed. item.now.rdata ≡ data_bytes typed) }
    // The rdata doesn't have the shape of its type and class.
    ensures refused { IfErr result (λ fault. fault ≢ rdata_fault.NoMemory
        → data_of item.now ≡ None) }
    // Such rdata, as that which is cut, is never want of memory.
    ensures bad { data_of item.now ≡ None → result ≡ Err rdata_fault.BadRdata }
    // A well-formed record, as those of decoded messages are, is refused for want of memory alone.
    ensures formed { IsWellFormed item.now → IfErr result (λ fault. fault ≡ rdata_fault.NoMemory) }
{
    if item.is_well_formed() {
        data_in(alloc, item.kind, item.class, item.rdata.as_slice())
    } else {
        Err(RdataFault::BadRdata)
    }
}

/// What rdata says in a record of a type and class.
fn data_in(alloc: Global, kind: u16, class: u16, bytes: &[u8]) -> Result<RecordData, RdataFault>
    ensures read { Gives result (data_in kind class bytes.now) }
    ensures spelled { IfOk result (λ typed. bytes.now ≡ data_bytes typed) }
{
    data_by_kind(alloc, kind, class, bytes)
}

/// The same, type by type.
fn data_by_kind(
    alloc: Global,
    kind: u16,
    class: u16,
    bytes: &[u8],
) -> Result<RecordData, RdataFault>
    ensures { Gives result (data_in kind class bytes.now) }
{
    match kind {
        KIND_A if class == CLASS_IN => Ok(RecordData::A(v4_in(bytes)?)),
        KIND_NS => Ok(RecordData::Ns(whole_name(alloc, bytes)?)),
        KIND_CNAME => Ok(RecordData::Cname(whole_name(alloc, bytes)?)),
        KIND_SOA => soa_in(alloc, bytes),
        KIND_PTR => Ok(RecordData::Ptr(whole_name(alloc, bytes)?)),
        KIND_HINFO => hinfo_in(alloc, bytes),
        KIND_MX => mx_in(alloc, bytes),
        KIND_TXT => Ok(RecordData::Txt(strings_in(alloc, bytes)?)),
        KIND_AAAA if class == CLASS_IN => Ok(RecordData::Aaaa(v6_in(bytes)?)),
        KIND_SRV if class == CLASS_IN => srv_in(alloc, bytes),
        KIND_OPT => Ok(RecordData::Opt(Bytes::of(alloc, bytes)?)),
        _ => Ok(RecordData::Raw(Bytes::of(alloc, bytes)?)),
    }
}

fn v4_in(bytes: &[u8]) -> Result<Addr, RdataFault>
    ensures { Gives result (v4_in bytes.now) }
{
    if bytes.len() != 4 {
        return Err(RdataFault::BadRdata);
    }
    Ok(Addr::V4(BigEndian::read_u32(bytes)))
}

fn v6_in(bytes: &[u8]) -> Result<Addr, RdataFault>
    ensures { Gives result (v6_in bytes.now) }
{
    if bytes.len() != 16 {
        return Err(RdataFault::BadRdata);
    }
    Ok(Addr::V6(BigEndian::read_u128(bytes)))
}

fn soa_in(alloc: Global, bytes: &[u8]) -> Result<RecordData, RdataFault>
    ensures { Gives result (soa_in bytes.now) }
{
    let (mname, behind) = name_in(alloc, bytes)?;
    let (rname, rest) = name_in(alloc, behind)?;
    if rest.len() != 20 {
        return Err(RdataFault::BadRdata);
    }
    Ok(RecordData::Soa {
        mname,
        rname,
        serial: BigEndian::read_u32(rest),
        refresh: BigEndian::read_u32(&rest[4..]),
        retry: BigEndian::read_u32(&rest[8..]),
        expire: BigEndian::read_u32(&rest[12..]),
        minimum: BigEndian::read_u32(&rest[16..]),
    })
}

fn hinfo_in(alloc: Global, bytes: &[u8]) -> Result<RecordData, RdataFault>
    ensures { Gives result (hinfo_in bytes.now) }
{
    let mut strings = strings_in(alloc, bytes)?.into_vec();
    if strings.len() != 2 {
        return Err(RdataFault::BadRdata);
    }
    let os = strings.pop().unwrap();
    let cpu = strings.pop().unwrap();
    Ok(RecordData::Hinfo(cpu, os))
}

fn mx_in(alloc: Global, bytes: &[u8]) -> Result<RecordData, RdataFault>
    ensures { Gives result (mx_in bytes.now) }
{
    if bytes.len() < 2 {
        return Err(RdataFault::BadRdata);
    }
    Ok(RecordData::Mx {
        preference: BigEndian::read_u16(bytes),
        exchange: whole_name(alloc, &bytes[2..])?,
    })
}

fn srv_in(alloc: Global, bytes: &[u8]) -> Result<RecordData, RdataFault>
    ensures { Gives result (srv_in bytes.now) }
{
    if bytes.len() < 6 {
        return Err(RdataFault::BadRdata);
    }
    Ok(RecordData::Srv {
        priority: BigEndian::read_u16(bytes),
        weight: BigEndian::read_u16(&bytes[2..]),
        port: BigEndian::read_u16(&bytes[4..]),
        target: whole_name(alloc, &bytes[6..])?,
    })
}
