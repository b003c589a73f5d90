//! The query that carries a cookie (RFC 7873, sections 4 and 5.1).

ghost use Rattle.std.specs.Prelude.{◌≡◌, ◌≤◌, length, map, IfOk};
ghost use Rattle.edns_opt.specs.Options.{option_spelling};
ghost use Rattle.edns_opt.specs.Reading.{opt_of};
ghost use Rattle.dns_cookie.specs.Cookie as meaning;
ghost use Rattle.dns_cookie.specs.Cookie.{cookie_option};

use crate::plain::{extended, is_plain, push_option};
use dns_message::numbers::KIND_OPT;
use dns_message::{EncodeFault, Message, MessageFault, Record, RecordList, decode, encode};
use edns_opt::{EdnsFault, find};
use item_list::{Bytes, NoMemory};
use std::alloc::Global;

/// The code of the cookie option (RFC 7873, section 4).
pub(crate) const COOKIE_CODE: u16 = 10;

/// The most bytes of a cookie: 8 of the client's and 32 of the server's (RFC 7873, section 4).
pub(crate) const COOKIE_MOST: usize = 40;

/// The most bytes of a message (RFC 1035, section 4.2.2).
const MESSAGE_MOST: usize = 65_535;

/// The most bytes of a query that has room for an option with the longest cookie: 4 of its code and length, and 40.
const PLAIN_MOST: usize = 65_491;

/// The query with this cookie, in an option behind the other options of its OPT record (RFC 7873, section 5.1). There is
/// none where the query goes as it is: it is no message, it has no OPT record that can be read, or it would have more
/// than 65,535 bytes with the longest cookie, so that its room doesn't hang on which cookie is known; or the cookie is longer
/// than any, 40 bytes.
pub fn cookied(alloc: Global, query: &[u8], cookie: &[u8]) -> Result<Option<Bytes>, NoMemory>
    ensures { IfOk result (λ sent. sent ≡ meaning.cookied cookie.now query.now) }
{
    if cookie.len() > COOKIE_MOST {
        return Ok(None);
    }
    cookied_query(alloc, query, cookie)
}

/// The same with a cookie of 40 bytes at most. A query in the form in which most are written isn't read as a message.
#[tactic(auto, using(crate::proofs::PlainLemmas::plain_cookied))]
fn cookied_query(alloc: Global, query: &[u8], cookie: &[u8]) -> Result<Option<Bytes>, NoMemory>
    requires { length cookie.now ≤ 40 }
    ensures { IfOk result (λ sent. sent ≡ meaning.cookied_query cookie.now query.now) }
{
    if query.len() <= PLAIN_MOST && is_plain(query) {
        return Ok(Some(extended(alloc, query, cookie)?));
    }
    match decode(alloc, query) {
        Ok(message) => cookied_message(alloc, message, cookie),
        Err(MessageFault::NoMemory) => Err(NoMemory),
        Err(
            MessageFault::ShortHeader
            | MessageFault::ShortPart(_)
            | MessageFault::BadLabel(_)
            | MessageFault::BadPointer(_)
            | MessageFault::LongName(_)
            | MessageFault::BadRdata(_)
            | MessageFault::TrailingBytes(_),
        ) => Ok(None),
    }
}

/// The same of a message that was read.
fn cookied_message(
    alloc: Global,
    message: Message,
    cookie: &[u8],
) -> Result<Option<Bytes>, NoMemory>
    requires { length cookie.now ≤ 40 }
    ensures { IfOk result (λ sent. sent ≡ meaning.cookied_message cookie.now message) }
{
    if !has_opt(alloc, &message)? {
        return Ok(None);
    }
    let option = option_bytes(alloc, cookie)?;
    written(
        alloc,
        &message_with(alloc, message, option.as_slice())?,
        cookie.len(),
    )
}

/// Whether it has one OPT record, which can be read.
fn has_opt(alloc: Global, message: &Message) -> Result<bool, NoMemory>
    ensures { IfOk result (λ has. has ≡ meaning.has_opt (opt_of message.now)) }
{
    match find(alloc, message) {
        Ok(opt) => Ok(opt.is_some()),
        Err(EdnsFault::NoMemory) => Err(NoMemory),
        Err(EdnsFault::DoubleOpt | EdnsFault::BadOptions(_)) => Ok(false),
    }
}

/// The option that carries a cookie, on the wire.
fn option_bytes(alloc: Global, cookie: &[u8]) -> Result<Bytes, NoMemory>
    requires { length cookie.now ≤ 40 }
    ensures { IfOk result (λ bytes. bytes ≡ option_spelling (cookie_option cookie.now)) }
{
    let mut out = Vec::new(alloc);
    push_option(&mut out, cookie)?;
    Ok(Bytes::from_vec(out))
}

/// The message with this option behind the others of its OPT record.
fn message_with(alloc: Global, message: Message, option: &[u8]) -> Result<Message, NoMemory>
    ensures { IfOk result (λ with. with ≡ meaning.message_with option.now message) }
{
    let mut with = message;
    with.additionals = records_with(alloc, with.additionals, option)?;
    Ok(with)
}

/// The records, with this option behind the others of each OPT record.
fn records_with(alloc: Global, records: RecordList, option: &[u8]) -> Result<RecordList, NoMemory>
    ensures { IfOk result (λ all. all ≡ map (meaning.record_with option.now) records) }
{
    let mut all = RecordList::new(alloc);
    for item in records.into_vec() {
        all.push(record_with(item, option)?)?;
    }
    Ok(all)
}

/// The record, with this option behind its others where it is an OPT record.
fn record_with(item: Record, option: &[u8]) -> Result<Record, NoMemory>
    ensures { IfOk result (λ with. with ≡ meaning.record_with option.now item) }
{
    let mut with = item;
    if with.kind == KIND_OPT {
        let mut rdata = with.rdata.into_vec();
        rdata.extend_from_slice(option)?;
        with.rdata = Bytes::from_vec(rdata);
    }
    Ok(with)
}

/// The bytes of a message with a cookie of so many bytes, unless they would be too many with the longest cookie.
fn written(alloc: Global, message: &Message, cookie: usize) -> Result<Option<Bytes>, NoMemory>
    requires { cookie ≤ 40 }
    ensures { IfOk result (λ sent. sent ≡ meaning.written cookie message.now) }
{
    match encode(alloc, message) {
        Ok(bytes) if bytes.len() + (COOKIE_MOST - cookie) <= MESSAGE_MOST => Ok(Some(bytes)),
        Ok(_) | Err(EncodeFault::TooLong) => Ok(None),
        Err(EncodeFault::NoMemory) => Err(NoMemory),
    }
}
