//! Which attempt a message answers.

ghost use Rattle.std.specs.Prelude.{◌≡◌, if◌then◌else◌, Some, None, IfOk, is_some, option_map};
ghost use Rattle.channel_model.specs.Flight.{answer_to, asked_with};
ghost use Rattle.channel_model.specs.Verdict.{verdict_of};
ghost use Rattle.channel_table.specs.Wants.{is_of_addresses};
ghost use Rattle.channel_table.specs.Arriving.{RowFinds, judged_of, landing_of};
ghost use Rattle.channel_table.specs.Strays.{id_of};

use crate::lookup::Lookup;
use crate::row::Row;
use crate::wanted::Wanted;
use chan_types::{NoMemory, Token};
use channel_model::Judged;
use dns_message::Question;
use query_machine::{Flying, Phase, Terms, judge};
use resolv_options::Flags;
use std::alloc::Global;

/// The lookup that a message answers, and what that means for its leg.
#[derive(Clone, Copy, Debug, PartialEq, Eq)]
pub struct Landing {
    pub index: usize,
    pub is_second: bool,
    pub number: u64,
    pub leg_number: u8,
    pub judged: Judged,
}

/// The lookup of the row at this index that the message answers.
#[inline(always)]
pub fn row_landing<T: Token>(
    alloc: Global,
    row: &Row<T>,
    index: usize,
    flags: Flags,
    server: u32,
    link: u64,
    bytes: &[u8],
) -> Result<Option<Landing>, NoMemory>
    ensures { IfOk result (RowFinds flags server link bytes.now index row.now) }
{
    if let Some(judged) = judged_of(alloc, row.wanted, &row.first, flags, server, link, bytes)? {
        return Ok(Some(landing_of(&row.first, index, false, judged)));
    }
    let Some(second) = &row.second else {
        return Ok(None);
    };
    let lookup = second.lookup();
    match judged_of(alloc, row.wanted, lookup, flags, server, link, bytes)? {
        Some(judged) => Ok(Some(landing_of(lookup, index, true, judged))),
        None => Ok(None),
    }
}

/// The identifier of a message: its first two bytes, if it has them.
pub fn id_of(bytes: &[u8]) -> Option<u16>
    ensures { result ≡ id_of bytes.now }
{
    match bytes {
        [] | [_] => None,
        [high, low, ..] => Some(*high as u16 * 256 + *low as u16),
    }
}

/// A lookup of the row at this index that a message answers, which means this.
#[inline(always)]
fn landing_of(lookup: &Lookup, index: usize, is_second: bool, judged: Judged) -> Landing
    ensures { result ≡ landing_of index is_second judged lookup.now }
{
    Landing {
        index,
        is_second,
        number: lookup.number,
        leg_number: lookup.leg_number,
        judged,
    }
}

/// What the message means for the lookup's leg, where it answers its attempt and the answer is made of this.
#[inline(always)]
fn judged_of(
    alloc: Global,
    wanted: Wanted,
    lookup: &Lookup,
    flags: Flags,
    server: u32,
    link: u64,
    bytes: &[u8],
) -> Result<Option<Judged>, NoMemory>
    ensures { IfOk result (λ judged. judged ≡ judged_of flags server link bytes.now wanted lookup.now) }
{
    if !lookup.flew_over(server, link) {
        return Ok(None);
    }
    let Phase::InFlight(flying) = lookup.leg.phase else {
        return Ok(None);
    };
    let terms = Terms {
        flags,
        tcp: link != 0,
        edns: lookup.leg.has_opt,
        wanted: kind_wanted(wanted, lookup.question.kind),
    };
    judged_by(alloc, &lookup.question, flying, bytes, terms)
}

/// The kind of which an answer is wanted by a leg for records of a kind: for addresses that kind, else any.
fn kind_wanted(wanted: Wanted, kind: u16) -> Option<u16>
    ensures { result ≡ (if is_of_addresses wanted then Some kind else None) }
{
    if wanted.is_of_addresses() {
        Some(kind)
    } else {
        None
    }
}

/// What the bytes mean, where they answer the attempt for this question.
#[inline(always)]
fn judged_by(
    alloc: Global,
    question: &Question,
    flying: Flying,
    bytes: &[u8],
    terms: Terms,
) -> Result<Option<Judged>, NoMemory>
    ensures { IfOk result (λ judged. judged
        ≡ option_map (verdict_of terms.flags terms.tcp terms.edns terms.wanted)
        (answer_to flying.id (is_some flying.mix) (Some (asked_with flying.mix question.now)) bytes.now)) }
{
    match flying.mix {
        None => Ok(judge(bytes, flying.id, question, false, terms)),
        Some(mix) => {
            let asked = Question {
                name: question.name.mixed(alloc, mix)?,
                kind: question.kind,
                class: question.class,
            };
            Ok(judge(bytes, flying.id, &asked, true, terms))
        }
    }
}
