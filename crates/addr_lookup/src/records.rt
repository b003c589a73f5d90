//! What a reply's answers say of a host: its addresses, and its name behind all aliases.

ghost use Rattle.std.specs.Prelude.{◌≡◌, ◌++◌, ℕ, List, All, IfOk, OnOk};
ghost use Rattle.dns_message.specs.Name.{same_name};
ghost use Rattle.dns_message.specs.Validity.{IsWellFormed};
ghost use Rattle.channel_model.specs.Merge.{canonical_name as canonical_of, is_alias as is_alias_of, target_of};
ghost use Rattle.channel_model.specs.Verdict.{is_of_kind as is_of_kind_test};
ghost use Rattle.addr_lookup.specs.Kinds.{addresses_of_kind, address_of_kind};

use byteorder::{BigEndian, ByteOrder};
use chan_types::{Addr, Name, NoMemory};
use dns_message::Record;
use dns_message::numbers::{CLASS_IN, KIND_A, KIND_AAAA, KIND_CNAME};
use dns_rdata::{RdataFault, RecordData, rdata};
use std::alloc::Global;

/// The kinds of records that are addresses.
#[derive(Clone, Copy)]
pub(crate) enum Kind {
    A,
    Aaaa,
}

/// Adds the addresses of the records of this kind, in their order. It takes room for them at once.
#[tactic(auto, using(crate::proofs::KindLemmas::addresses_from))]
pub(crate) fn add_addresses(
    addresses: &mut Vec<Addr>,
    kind: Kind,
    records: &[Record],
) -> Result<(), NoMemory>
    requires { All IsWellFormed records.now }
    ensures { OnOk result (addresses.new.items ≡ addresses.old.items ++ addresses_of_kind kind records.now) }
{
    addresses.reserve(records.len())?;
    for item in records {
        if let Some(address) = address_in(kind, item) {
            addresses.push(address)?;
        }
    }
    Ok(())
}

/// The address of a record, if it is of this kind.
#[tactic(auto, using(crate::proofs::NumberLemmas::number_is, crate::proofs::RecordLemmas::four_bytes, crate::proofs::RecordLemmas::sixteen_bytes))]
fn address_in(kind: Kind, item: &Record) -> Option<Addr>
    requires { IsWellFormed item.now }
    ensures { result ≡ address_of_kind kind item.now }
{
    match kind {
        Kind::A if is_of_kind(item, KIND_A) => {
            Some(Addr::V4(BigEndian::read_u32(item.rdata.as_slice())))
        }
        Kind::Aaaa if is_of_kind(item, KIND_AAAA) => {
            Some(Addr::V6(BigEndian::read_u128(item.rdata.as_slice())))
        }
        _ => None,
    }
}

/// Whether the record is of this kind, in the Internet class.
fn is_of_kind(item: &Record, kind: u16) -> bool
    ensures { result ≡ is_of_kind_test kind item.now }
{
    item.kind == kind && item.class == CLASS_IN
}

/// The name behind the aliases, each followed in the order of the records.
#[tactic(auto, using(crate::proofs::KindLemmas::name_from))]
pub(crate) fn canonical_name(
    alloc: Global,
    candidate: &Name,
    records: &[Record],
) -> Result<Name, NoMemory>
    requires { All IsWellFormed records.now }
    ensures { IfOk result (λ name. name ≡ canonical_of candidate.now records.now) }
{
    let mut name = candidate.copy(alloc)?;
    for item in records {
        if is_alias(&name, item) {
            name = target(alloc, item)?;
        }
    }
    Ok(name)
}

/// Whether the record says that the name is an alias.
fn is_alias(name: &Name, item: &Record) -> bool
    ensures { result ≡ is_alias_of name.now item.now }
{
    item.kind == KIND_CNAME && is_same(&item.name, name)
}

/// Whether the names are the same, ignoring ASCII case.
fn is_same(name: &Name, other: &Name) -> bool
    ensures { result ≡ same_name name.now other.now }
{
    name.same(other)
}

/// The name that an alias stands for (RFC 1035, section 3.3.1).
fn target(alloc: Global, item: &Record) -> Result<Name, NoMemory>
    requires formed { IsWellFormed item.now }
    requires alias { item.now.kind ≡ 5 }
    ensures { IfOk result (λ name. name ≡ target_of item.now) }
{
    match rdata(alloc, item) {
        Ok(typed) => Ok(alias_in(alloc, typed)),
        Err(RdataFault::BadRdata) => unreachable!(),
        Err(RdataFault::NoMemory) => Err(NoMemory),
    }
}

/// The name of an alias, and the root in place of other data.
fn alias_in(alloc: Global, typed: RecordData) -> Name
    ensures { (name : List (List ℕ)) → typed ≡ RecordData.Cname name → result ≡ name }
{
    match typed {
        RecordData::Cname(name) => name,
        _ => Name::root(alloc),
    }
}
