//! What the replies to the two questions of an Address request's candidate come to.

ghost use Rattle.std.specs.Prelude.{◌≡◌, ◌++◌, [], All, Some, IfOk, if◌then◌else◌};
ghost use Rattle.chan_types.specs.declared.status.Status.TheVariants as statuses;
ghost use Rattle.dns_message.specs.Validity.{IsWellFormed};
ghost use Rattle.channel_model.specs.LegEnd.{LegEnd as Ending};
ghost use Rattle.channel_model.specs.Merge.{merged, merged_one, found as found_answer, canonical_name as canonical_of, addresses_v4, addresses_v6, same_status as same_status_of, status_of_both as status_of_both_of};
ghost use Rattle.channel_model.specs.Setting.{Setting};
ghost use Rattle.addr_lookup.specs.Ends.{AreWellFormed, IsEnd, IsUsed};
ghost use Rattle.addr_lookup.specs.Kinds.{addresses_of_kind};
ghost use Rattle.addr_lookup.specs.Merging.{answer_of_one, answer_of_both, answer_of_legs};

use crate::building::{bare, good};
use crate::leg_end::LegEnd;
use crate::ordering::ordered;
use crate::records::{Kind, add_addresses, canonical_name};
use chan_types::{Addr, AddrList, Answer, Name, NoMemory, Status};
use dns_message::Record;
use resolv_options::Options;
use std::alloc::Global;

/// What the replies answer: a request of this number, which asked this candidate.
#[derive(Clone, Copy)]
struct Asked<'a> {
    number: u64,
    candidate: &'a Name,
    options: &'a Options,
    nosort: bool,
}

/// The answer of an Address request's candidate whose legs ended so: the left one asked for IPv4 addresses, the right one
/// for IPv6 addresses.
pub fn merge(
    alloc: Global,
    number: u64,
    left: &LegEnd,
    right: &LegEnd,
    candidate: &Name,
    options: &Options,
    nosort: bool,
) -> Result<Answer, NoMemory>
    requires used { IsUsed left.now right.now }
    requires left_formed { AreWellFormed left.now }
    requires right_formed { AreWellFormed right.now }
    ensures answer { IfOk result (λ answer. (channel : Setting) → channel.options ≡ options.now
        → answer_of_legs channel number nosort candidate.now left.now right.now ≡ Some answer) }
    // The same by the ends that a journal gives the legs.
    ensures both { IfOk result (λ answer. (channel : Setting) (first second : Ending)
        → channel.options ≡ options.now
        → IsEnd left.now first → IsEnd right.now second
        → answer ≡ merged channel number nosort candidate.now first second) }
    ensures left { IfOk result (λ answer. (channel : Setting) (end : Ending) → channel.options ≡ options.now
        → IsEnd left.now end → right.now ≡ LegEnd.Unused
        → answer ≡ merged_one channel number nosort candidate.now addresses_v4 end) }
    ensures right { IfOk result (λ answer. (channel : Setting) (end : Ending) → channel.options ≡ options.now
        → IsEnd right.now end → left.now ≡ LegEnd.Unused
        → answer ≡ merged_one channel number nosort candidate.now addresses_v6 end) }
{
    let asked = Asked {
        number,
        candidate,
        options,
        nosort,
    };
    merge_legs(alloc, &asked, left, right)
}

/// The answer of a candidate whose legs ended so.
fn merge_legs(
    alloc: Global,
    asked: &Asked<'_>,
    left: &LegEnd,
    right: &LegEnd,
) -> Result<Answer, NoMemory>
    requires used { IsUsed left.now right.now }
    requires left_formed { AreWellFormed left.now }
    requires right_formed { AreWellFormed right.now }
    ensures { IfOk result (λ answer. (channel : Setting) → channel.options ≡ asked.now.options.now
        → answer_of_legs channel asked.now.number asked.now.nosort asked.now.candidate.now left.now right.now ≡ Some answer) }
{
    match (left, right) {
        (LegEnd::Ended(first, four), LegEnd::Ended(second, six)) => merge_both(
            alloc,
            asked,
            status_of_both(*first, *second),
            counted(*first, four.as_slice()),
            counted(*second, six.as_slice()),
        ),
        (LegEnd::Ended(status, records), LegEnd::Unused) => {
            merge_one(alloc, asked, Kind::A, *status, records.as_slice())
        }
        (LegEnd::Unused, LegEnd::Ended(status, records)) => {
            merge_one(alloc, asked, Kind::Aaaa, *status, records.as_slice())
        }
        (LegEnd::Unused, LegEnd::Unused) => unreachable!(),
    }
}

/// The answer of one leg, which asked for addresses of this kind.
fn merge_one(
    alloc: Global,
    asked: &Asked<'_>,
    kind: Kind,
    status: Status,
    records: &[Record],
) -> Result<Answer, NoMemory>
    requires { All IsWellFormed records.now }
    ensures { IfOk result (λ answer. (channel : Setting) → channel.options ≡ asked.now.options.now
        → answer ≡ answer_of_one channel asked.now.number asked.now.nosort asked.now.candidate.now
        (addresses_of_kind kind) status records.now) }
{
    if !same_status(status, Status::Success) {
        return Ok(bare(alloc, asked.number, status));
    }
    let mut addresses = Vec::new(alloc);
    add_addresses(&mut addresses, kind, records)?;
    found(alloc, asked, addresses, records)
}

/// The answer of two legs whose records count, or with this status where they have no address.
fn merge_both(
    alloc: Global,
    asked: &Asked<'_>,
    status: Status,
    four: &[Record],
    six: &[Record],
) -> Result<Answer, NoMemory>
    requires four { All IsWellFormed four.now }
    requires six { All IsWellFormed six.now }
    ensures { IfOk result (λ answer. (channel : Setting) → channel.options ≡ asked.now.options.now
        → answer ≡ answer_of_both channel asked.now.number asked.now.nosort asked.now.candidate.now status four.now six.now) }
{
    let mut addresses = Vec::new(alloc);
    add_addresses(&mut addresses, Kind::A, four)?;
    let naming = if addresses.is_empty() { six } else { four };
    add_addresses(&mut addresses, Kind::Aaaa, six)?;
    if addresses.is_empty() {
        return Ok(bare(alloc, asked.number, status));
    }
    found(alloc, asked, addresses, naming)
}

/// The good answer with these addresses, which belong to the candidate's name behind the aliases of these records.
fn found(
    alloc: Global,
    asked: &Asked<'_>,
    addresses: Vec<Addr>,
    naming: &[Record],
) -> Result<Answer, NoMemory>
    requires { All IsWellFormed naming.now }
    ensures { IfOk result (λ answer. (channel : Setting) → channel.options ≡ asked.now.options.now
        → answer ≡ found_answer channel asked.now.number asked.now.nosort addresses.items
        (canonical_of asked.now.candidate.now naming.now)) }
{
    let addresses = AddrList::from_vec(addresses);
    let addresses = ordered(alloc, addresses, asked.options, asked.nosort)?;
    let canonical = canonical_name(alloc, asked.candidate, naming)?;
    Ok(good(alloc, asked.number, addresses, canonical))
}

/// The records that count: none where the status isn't Success.
fn counted(status: Status, records: &[Record]) -> &[Record]
    ensures { result.now ≡ (if same_status_of status statuses.Success then records.now else []) }
{
    if same_status(status, Status::Success) {
        records
    } else {
        &[]
    }
}

/// The status of a candidate with two legs that gave no address: NoData where either leg has it, else that of the first
/// leg where it isn't NotFound, else that of the second.
fn status_of_both(left: Status, right: Status) -> Status
    ensures { result ≡ status_of_both_of left right }
{
    if same_status(left, Status::NoData) || same_status(right, Status::NoData) {
        return Status::NoData;
    }
    if same_status(left, Status::NotFound) {
        right
    } else {
        left
    }
}

/// Whether the statuses are one.
fn same_status(status: Status, other: Status) -> bool
    ensures { result ≡ same_status_of status other }
{
    status.code() == other.code()
}
