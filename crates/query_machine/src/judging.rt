//! What a reply that answers a query means for its leg.

ghost use Rattle.std.specs.Prelude.{◌≡◌, if◌then◌else◌, Some, None};
ghost use Rattle.std.specs.List.{list_any};
ghost use Rattle.channel_model.specs.Verdict.{has_answer, is_of_kind, is_refusal, status_of_rcode, verdict_of};
ghost use Rattle.dns_message.specs.Numbers.{has_bit};
ghost use Rattle.query_machine.specs.Replies.{code_of, outline_seen, reply_seen, verdict_by};

use crate::reply::Reply;
use chan_types::Status;
use channel_model::Judged;
use dns_message::Record;
use dns_message::numbers::{CLASS_IN, FLAG_TC};
use message_walk::Outline;
use resolv_options::Flags;

/// By what a reply is judged: how its query was sent, what the channel's flags are, and what answer is wanted.
#[derive(Clone, Copy, Debug, PartialEq, Eq)]
pub struct Terms {
    pub flags: Flags,
    /// The query went over TCP, or else over UDP.
    pub tcp: bool,
    /// The query had an OPT record.
    pub edns: bool,
    /// The kind of which an answer is wanted, by the leg of an Address request; any other leg wants just an answer.
    pub wanted: Option<u16>,
}

/// What a reply with these flags in its header and this outline means: the first of four rules that fits, which are this
/// project's profile in the manner of c-ares. A truncated one is asked again over TCP; one that refuses the OPT record is
/// asked again without; SERVFAIL, NOTIMP and REFUSED fail the attempt; anything else ends the leg.
pub(crate) fn judged_by(header: u16, outline: Outline, terms: Terms) -> Judged
    ensures { result ≡ verdict_by terms.flags terms.tcp terms.edns header outline }
{
    let code = code_of(header, outline.extended);
    if is_truncated(header) && !terms.tcp && !terms.flags.igntc {
        return Judged::NextTcp;
    }
    if header % 16 == 1 && outline.extended.is_none() && terms.edns {
        return Judged::NextPlain;
    }
    if is_refusal(code) && !terms.flags.nocheckresp {
        return Judged::Failed(status_of_rcode(code));
    }
    if code == 0 {
        return Judged::Final(status_of_answers(outline.answered));
    }
    Judged::Final(status_of_rcode(code))
}

/// What a reply means for the leg whose query went over TCP (`tcp`) or UDP, with an OPT record (`edns`) or without, and
/// asked for records of a kind. The leg of an Address request (`address_leg`) wants an answer of its own kind, any other
/// leg just an answer.
pub fn verdict(
    reply: &Reply,
    tcp: bool,
    edns: bool,
    flags: Flags,
    kind: u16,
    address_leg: bool,
) -> Judged
    ensures { result ≡ verdict_of flags tcp edns (if address_leg then Some kind else None)
        (reply_seen reply.now) }
{
    let wanted = if address_leg { Some(kind) } else { None };
    let terms = Terms {
        flags,
        tcp,
        edns,
        wanted,
    };
    judged_by(reply.message.flags, outline_of(reply, wanted), terms)
}

/// The outline of a reply.
fn outline_of(reply: &Reply, wanted: Option<u16>) -> Outline
    ensures { result ≡ outline_seen wanted (reply_seen reply.now) }
{
    let extended = match &reply.opt {
        Some(opt) => Some(opt.ext_rcode),
        None => None,
    };
    Outline {
        answered: has_answer(reply.message.answers.as_slice(), wanted),
        extended,
    }
}

/// There is an answer of the wanted kind in the Internet class, or any answer where no kind is wanted.
fn has_answer(records: &[Record], wanted: Option<u16>) -> bool
    ensures { result ≡ has_answer wanted records.now }
{
    match wanted {
        Some(kind) => has_kind(records, kind),
        None => !records.is_empty(),
    }
}

/// A record is of this kind, in the Internet class.
fn has_kind(records: &[Record], kind: u16) -> bool
    ensures { result ≡ list_any (is_of_kind kind) records.now }
{
    match records {
        [] => false,
        [first, rest @ ..] => (first.kind == kind && first.class == CLASS_IN)
            || has_kind(rest, kind),
    }
}

/// The response code: four bits of the header, and above them eight of the OPT record, if there is one (RFC 6891,
/// section 6.1.3).
fn code_of(header: u16, extended: Option<u8>) -> u16
    ensures { result ≡ code_of header extended }
{
    match extended {
        None => header % 16,
        Some(extended) => extended as u16 * 16 + header % 16,
    }
}

/// The flags are those of a truncated message.
fn is_truncated(flags: u16) -> bool
    ensures { result ≡ has_bit 9 flags }
{
    flags / FLAG_TC % 2 == 1
}

/// The server didn't answer the question: SERVFAIL, NOTIMP or REFUSED (RFC 1035, section 4.1.1).
fn is_refusal(code: u16) -> bool
    ensures { result ≡ is_refusal code }
{
    code == 2 || code == 4 || code == 5
}

/// The status of a response code other than 0 (RFC 1035, section 4.1.1).
fn status_of_rcode(code: u16) -> Status
    ensures { result ≡ status_of_rcode code }
{
    match code {
        1 => Status::FormErr,
        2 => Status::ServFail,
        3 => Status::NotFound,
        4 => Status::NotImp,
        5 => Status::Refused,
        _ => Status::BadResp,
    }
}

/// The status of a good reply, by whether it has the wanted answers.
fn status_of_answers(answered: bool) -> Status
    ensures { result ≡ (if answered then Status.Success else Status.NoData) }
{
    if answered {
        Status::Success
    } else {
        Status::NoData
    }
}
