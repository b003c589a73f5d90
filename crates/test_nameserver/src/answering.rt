//! Which records of a zone answer a question.

ghost use Rattle.std.specs.Prelude.{◌≡◌, ◌++◌, map, find, IfOk, IfSome, OnOk};
ghost use Rattle.std.specs.Option.{option_copied};
ghost use Rattle.std.specs.Prelude.{option_map};
ghost use Rattle.dns_rdata.specs.Parts.{whole_name};
ghost use Rattle.test_nameserver.specs.Target.{canonical_of};
ghost use Rattle.test_nameserver.specs.Answers.{has_kind, of_kind, is_alias, alias_of, answers_over};

use crate::zone::Zone;
use dns_message::numbers::{KIND_ANY, KIND_CNAME};
use dns_message::{Name, Record, RecordList};
use dns_rdata::{RdataFault, RecordData, rdata};
use item_list::{Bytes, NoMemory};
use std::alloc::Global;

/// Whether the record has the type that is asked for.
fn has_kind(kind: u16, item: &Record) -> bool
    ensures { result ≡ has_kind kind item.now }
{
    kind == KIND_ANY || item.kind == kind
}

/// An equal record.
fn copy_of(alloc: Global, item: &Record) -> Result<Record, NoMemory>
    ensures { IfOk result (λ copied. copied ≡ item.now) }
{
    Ok(Record {
        name: item.name.copy(alloc)?,
        kind: item.kind,
        class: item.class,
        ttl: item.ttl,
        rdata: Bytes::of(alloc, item.rdata.as_slice())?,
    })
}

/// Adds those records that have a type.
fn add_kind(
    alloc: Global,
    answers: &mut RecordList,
    found: &[&Record],
    kind: u16,
) -> Result<(), NoMemory>
    ensures { OnOk result (answers.new ≡ answers.old ++ of_kind kind (map (λ item. item.now) found.now)) }
{
    for item in found {
        if has_kind(kind, item) {
            answers.push(copy_of(alloc, item)?)?;
        }
    }
    Ok(())
}

/// The first CNAME record.
#[tactic(auto, using(std::proofs::lemmas::List::drop_more))]
fn first_alias<'a>(found: &[&'a Record]) -> Option<&'a Record>
    ensures first { option_copied result ≡ find is_alias (map (λ item. item.now) found.now) }
    ensures alias { IfSome result (λ item. item.now.kind ≡ 5) }
{
    for item in found {
        if item.kind == KIND_CNAME {
            return Some(*item);
        }
    }
    None
}

/// The canonical name of an alias's data.
fn canonical_of(typed: RecordData) -> Option<Name>
    ensures { result ≡ canonical_of typed }
{
    match typed {
        RecordData::Cname(name) => Some(name),
        RecordData::A(_)
        | RecordData::Ns(_)
        | RecordData::Soa { .. }
        | RecordData::Ptr(_)
        | RecordData::Hinfo(_, _)
        | RecordData::Mx { .. }
        | RecordData::Txt(_)
        | RecordData::Aaaa(_)
        | RecordData::Srv { .. }
        | RecordData::Opt(_)
        | RecordData::Raw(_) => None,
    }
}

/// The name that a CNAME record leads to.
#[tactic(auto, using(crate::proofs::AnswerLemmas::canonical_is, crate::proofs::AnswerLemmas::canonical_none))]
fn target_of(alloc: Global, item: &Record) -> Result<Option<Name>, NoMemory>
    requires { item.now.kind ≡ 5 }
    ensures { IfOk result (λ target. target ≡ whole_name item.now.rdata) }
{
    match rdata(alloc, item) {
        Ok(typed) => Ok(canonical_of(typed)),
        Err(RdataFault::BadRdata) => Ok(None),
        Err(RdataFault::NoMemory) => Err(NoMemory),
    }
}

/// The first CNAME record, and the name that it leads to.
fn alias_in<'a>(alloc: Global, found: &[&'a Record]) -> Result<Option<(&'a Record, Name)>, NoMemory>
    ensures { IfOk result (λ alias. option_map (λ pair. (pair.0.now, pair.1)) alias
        ≡ alias_of (map (λ item. item.now) found.now)) }
{
    let Some(item) = first_alias(found) else {
        return Ok(None);
    };
    match target_of(alloc, item)? {
        Some(target) => Ok(Some((item, target))),
        None => Ok(None),
    }
}

/// Adds the records of a name with a type; where there are none and the name is an alias, its record and then those of
/// its target, over at most so many aliases.
pub(crate) fn add_answers(
    alloc: Global,
    answers: &mut RecordList,
    zone: &Zone,
    kind: u16,
    aliases: u8,
    name: &Name,
) -> Result<(), NoMemory>
    ensures { OnOk result (answers.new ≡ answers.old ++ answers_over zone.now kind aliases name.now) }
{
    let found = zone.records_of(alloc, name)?;
    let before = answers.len();
    add_kind(alloc, answers, found.as_slice(), kind)?;
    if answers.len() > before || aliases == 0 {
        return Ok(());
    }
    match alias_in(alloc, found.as_slice())? {
        Some((item, target)) => {
            answers.push(copy_of(alloc, item)?)?;
            add_answers(alloc, answers, zone, kind, aliases - 1, &target)
        }
        None => Ok(()),
    }
}
