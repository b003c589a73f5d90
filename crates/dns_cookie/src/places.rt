//! Where the parts of a message stand that matter for cookies, found without making the message (RFC 1035, section 4.1).

ghost use Rattle.std.specs.Prelude.{◌≡◌, ◌≤◌, ◌+◌, Ok, List, ℕ, length, find, option_map, IfOk, IfSome};
ghost use Rattle.std.specs.Option.{option_copied};
ghost use Rattle.byteorder.specs.Endian.{big_from};
ghost use Rattle.dns_message.specs.Reading.{items_of, message_read, question_of, record_of};
ghost use Rattle.dns_message.specs.declared.message.Record.{Record};
ghost use Rattle.edns_opt.specs.Opt.{is_opt};
ghost use Rattle.message_walk.specs.Telling.{Ends};
ghost use Rattle.dns_cookie.specs.Places.{IsPlaced, Stands};

use byteorder::{BigEndian, ByteOrder};
use dns_message::numbers::KIND_OPT;
use dns_message::{MessageFault, name_end};
use message_walk::{OptSeen, section_at};

/// The length of a header.
const HEADER_LEN: usize = 12;

/// The length of a question's kind and class.
const QUESTION_FIXED_LEN: usize = 4;

/// The length of a record's kind, class, ttl and length of rdata.
const RECORD_FIXED_LEN: usize = 10;

/// Where a record stands.
#[derive(Clone, Copy, Debug)]
pub(crate) struct RecordPlace {
    pub kind: u16,
    /// The offset of its rdata.
    pub rdata_at: usize,
    /// The offset behind it.
    pub end: usize,
}

/// The number of 16 bits at an offset.
pub(crate) fn u16_at(bytes: &[u8], at: usize) -> u16
    requires { at + 2 ≤ length bytes.now }
    ensures { result ≡ big_from at 2 bytes.now }
{
    BigEndian::read_u16(&bytes[at..])
}

/// The offset of a message's additional records, and what the OPT records among them say.
#[tactic(auto, unfolding(dns_message::specs::Reading::message_read))]
pub(crate) fn additionals_of(bytes: &[u8]) -> Result<(usize, OptSeen), MessageFault>
    ensures read { IsPlaced bytes.now result (message_read bytes.now) }
    ensures header { IfOk result (λ _. 12 ≤ length bytes.now) }
    ensures within { IfOk result (λ found. found.0 ≤ length bytes.now) }
{
    if bytes.len() < HEADER_LEN {
        return Err(MessageFault::ShortHeader);
    }
    let answers = questions_end(bytes, u16_at(bytes, 4))?;
    let (_, authorities) = section_at(bytes, answers, u16_at(bytes, 6), None)?;
    let (_, additionals) = section_at(bytes, authorities, u16_at(bytes, 8), None)?;
    let (section, end) = section_at(bytes, additionals, u16_at(bytes, 10), None)?;
    if end < bytes.len() {
        return Err(MessageFault::TrailingBytes(end as u64));
    }
    Ok((additionals, section.opt))
}

/// The offset behind so many questions, the first of which stands behind the header.
fn questions_end(bytes: &[u8], count: u16) -> Result<usize, MessageFault>
    requires { 12 ≤ length bytes.now }
    ensures read { Ends result (items_of (question_of bytes.now) count 12) }
    ensures within { IfOk result (λ next. next ≤ length bytes.now) }
{
    let mut next = HEADER_LEN;
    for _ in 0..count {
        next = question_end(bytes, next)?;
    }
    Ok(next)
}

/// The offset behind the question at an offset.
#[tactic(auto, unfolding(dns_message::specs::Reading::question_of))]
fn question_end(bytes: &[u8], at: usize) -> Result<usize, MessageFault>
    ensures read { Ends result (question_of bytes.now at) }
    ensures within { IfOk result (λ next. next ≤ length bytes.now) }
{
    let fixed_at = name_end(bytes, at)?;
    if bytes.len() - fixed_at < QUESTION_FIXED_LEN {
        return Err(MessageFault::ShortPart(fixed_at as u64));
    }
    Ok(fixed_at + QUESTION_FIXED_LEN)
}

/// The rdata of the first OPT record of so many records from an offset on, which are known to be readable.
pub(crate) fn opt_rdata(bytes: &[u8], at: usize, count: u16) -> Option<&[u8]>
    ensures { (records : List Record) (end : ℕ) → items_of (record_of bytes.now) count at ≡ Ok (records, end)
        → option_copied result ≡ option_map (λ rr. rr.rdata) (find is_opt records) }
{
    let mut next = at;
    for _ in 0..count {
        let place = record_place(bytes, next)?;
        if place.kind == KIND_OPT {
            return Some(&bytes[place.rdata_at..place.end]);
        }
        next = place.end;
    }
    None
}

/// Where the record at an offset stands, whose rdata has its shape or not.
#[tactic(auto, unfolding(dns_message::specs::Reading::record_of))]
fn record_place(bytes: &[u8], at: usize) -> Option<RecordPlace>
    ensures stands { Stands bytes.now result (record_of bytes.now at) }
    ensures within { IfSome result (λ place. (place.rdata_at ≤ place.end) × (place.end ≤ length bytes.now)) }
{
    let Ok(fixed_at) = name_end(bytes, at) else {
        return None;
    };
    if bytes.len() - fixed_at < RECORD_FIXED_LEN {
        return None;
    }
    let rdata_at = fixed_at + RECORD_FIXED_LEN;
    let fixed = &bytes[fixed_at..rdata_at];
    let len = u16_at(fixed, 8) as usize;
    if bytes.len() - rdata_at < len {
        return None;
    }
    Some(RecordPlace {
        kind: u16_at(fixed, 0),
        rdata_at,
        end: rdata_at + len,
    })
}
