//! The answer of a request, where the legs have ended that it needs.

ghost use Rattle.std.specs.Prelude.{◌≡◌, All, IfOk, Some, option_map};
ghost use Rattle.addr_lookup.specs.Ends.{AreWellFormed, IsEnd};
ghost use Rattle.channel_model.specs.Merge.{answers_of, bare, merged, same_status};
ghost use Rattle.chan_types.specs.declared.status.Status.TheVariants as statuses;
ghost use Rattle.dns_message.specs.Validity.{IsValid, IsWellFormed};
ghost use Rattle.edns_opt.specs.Reading.{opt_of};
ghost use Rattle.channel_table.specs.Wants.{answer_of_ends};
ghost use Rattle.channel_table.specs.Wants.{answers_with, setting_with};
ghost use Rattle.channel_table.specs.declared.wanted.Wanted.TheVariants.{Addresses};
ghost use Rattle.channel_table.specs.Lookups.{ended_seen};

use crate::lookup::Ended;
use crate::wanted::Wanted;
use addr_lookup::{LegEnd, merge};
use chan_types::{Answer, Bytes, NoMemory, Status};
use dns_message::{Message, MessageFault, Name, RecordList, decode};
use edns_opt::{EdnsFault, find};
use net_addr::{AddrList, Family};
use resolv_options::Options;
use std::alloc::Global;

/// The answer of a candidate of a request of this number, whose legs have ended so, if those have that it has.
#[inline(always)]
pub fn answer_of(
    alloc: Global,
    options: &Options,
    number: u64,
    wanted: Wanted,
    name: &Name,
    left: Option<Ended<'_>>,
    right: Option<Ended<'_>>,
) -> Result<Option<Answer>, NoMemory>
    ensures { IfOk result (λ answer. answer
        ≡ answer_of_ends options.now number wanted name.now (option_map ended_seen left.entry)
        (option_map ended_seen right.entry)) }
{
    let Some(left) = left else {
        return Ok(None);
    };
    match wanted {
        Wanted::Reply => Ok(Some(bare_answer(
            alloc,
            number,
            left.status,
            Bytes::of(alloc, left.reply)?,
        ))),
        Wanted::Addresses(family, nosort) => {
            addresses_answer(alloc, options, number, family, nosort, name, left, right)
        }
    }
}

/// The same, where the answer is made of the addresses of this family, as they stood or sorted, and the first leg has
/// ended.
fn addresses_answer(
    alloc: Global,
    options: &Options,
    number: u64,
    family: Family,
    nosort: bool,
    name: &Name,
    left: Ended<'_>,
    right: Option<Ended<'_>>,
) -> Result<Option<Answer>, NoMemory>
    ensures { IfOk result (λ answer. answer
        ≡ answer_of_ends options.now number (Addresses family nosort) name.now
        (Some (ended_seen left.entry)) (option_map ended_seen right.entry)) }
{
    match family {
        Family::Any => both_answer(alloc, options, number, nosort, name, left, right),
        Family::V4 => {
            let end = end_of(alloc, left)?;
            let answer = merge(alloc, number, &end, &LegEnd::Unused, name, options, nosort)?;
            Ok(Some(answer))
        }
        Family::V6 => {
            let end = end_of(alloc, left)?;
            let answer = merge(alloc, number, &LegEnd::Unused, &end, name, options, nosort)?;
            Ok(Some(answer))
        }
    }
}

/// The same for both families.
fn both_answer(
    alloc: Global,
    options: &Options,
    number: u64,
    nosort: bool,
    name: &Name,
    left: Ended<'_>,
    right: Option<Ended<'_>>,
) -> Result<Option<Answer>, NoMemory>
    ensures { IfOk result (λ answer. answer
        ≡ option_map (merged (setting_with options.now) number nosort name.now (ended_seen left.entry))
        (option_map ended_seen right.entry)) }
{
    let Some(right) = right else {
        return Ok(None);
    };
    let left = end_of(alloc, left)?;
    let right = end_of(alloc, right)?;
    let answer = merge(alloc, number, &left, &right, name, options, nosort)?;
    Ok(Some(answer))
}

/// An answer with a status and a message alone. It takes no memory.
#[inline(always)]
pub fn bare_answer(alloc: Global, number: u64, status: Status, message: Bytes) -> Answer
    ensures { result ≡ bare number status message }
{
    Answer {
        number,
        status,
        message,
        addresses: AddrList::new(alloc),
        canonical: Name::root(alloc),
    }
}

/// The end of a leg with the answers of its reply.
fn end_of(alloc: Global, ended: Ended<'_>) -> Result<LegEnd, NoMemory>
    ensures is { IfOk result (λ end. IsEnd end (ended_seen ended.entry)) }
    ensures formed { IfOk result AreWellFormed }
{
    let records = if is_success(ended.status) {
        answers_in(alloc, ended.reply)?
    } else {
        RecordList::new(alloc)
    };
    Ok(LegEnd::Ended(ended.status, records))
}

/// The status is that of an answer.
fn is_success(status: Status) -> bool
    ensures { result ≡ same_status status statuses.Success }
{
    status.code() == Status::Success.code()
}

/// The answers of a reply.
fn answers_in(alloc: Global, bytes: &[u8]) -> Result<RecordList, NoMemory>
    ensures are { IfOk result (λ records. records ≡ answers_of bytes.now) }
    ensures formed { IfOk result (All IsWellFormed) }
{
    match decode(alloc, bytes) {
        Ok(message) => answers_with_opt(alloc, message),
        Err(MessageFault::NoMemory) => Err(NoMemory),
        Err(_) => Ok(RecordList::new(alloc)),
    }
}

/// The answers of a message whose OPT record, if it has one, can be read, or none.
fn answers_with_opt(alloc: Global, message: Message) -> Result<RecordList, NoMemory>
    requires { IsValid message }
    ensures are { IfOk result (λ records. records ≡ answers_with message (opt_of message)) }
    ensures formed { IfOk result (All IsWellFormed) }
{
    match find(alloc, &message) {
        Ok(_) => Ok(message.answers),
        Err(EdnsFault::NoMemory) => Err(NoMemory),
        Err(EdnsFault::DoubleOpt | EdnsFault::BadOptions(_)) => Ok(RecordList::new(alloc)),
    }
}
