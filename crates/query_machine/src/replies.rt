//! What bytes mean that come for a query.

ghost use Rattle.std.specs.Prelude.{◌≡◌, ◌+◌, ◌≤◌, ◌==◌, ◌^◌, ◌/◌, ◌%◌, Some, length, option_map};
ghost use Rattle.byteorder.specs.Endian.{big_from};
ghost use Rattle.channel_model.specs.Flight.{answer_to};
ghost use Rattle.channel_model.specs.Verdict.{verdict_of};
ghost use Rattle.dns_message.specs.Numbers.{has_bit};
ghost use Rattle.query_machine.specs.Replies.{may_answer};

use crate::judging::{Terms, judged_by};
use byteorder::{BigEndian, ByteOrder};
use channel_model::Judged;
use dns_message::Question;
use dns_message::numbers::{FLAG_QR, FLAGS_OPCODE};
use message_walk::read_outline;

/// The length of a header (RFC 1035, section 4.1.1).
const HEADER_LEN: usize = 12;

/// The lowest of the four bits that tell the kind of query, 0 for a standard one (RFC 1035, section 4.1.1).
const OPCODE: u16 = FLAGS_OPCODE / 15;

/// What the bytes mean for a leg, where they answer the query of this identifier for this question: they are a message that
/// is a response to a standard query (RFC 1035, section 4.1.1: QR 1, OPCODE 0), with the identifier and this question alone,
/// and its OPT record, if it has one, can be read. The question's name agrees byte for byte where `exact` is set, else
/// ignoring ASCII case. It takes no memory.
pub fn judge(bytes: &[u8], id: u16, asked: &Question, exact: bool, terms: Terms) -> Option<Judged>
    ensures { result ≡ option_map (verdict_of terms.flags terms.tcp terms.edns terms.wanted)
        (answer_to id exact (Some asked.now) bytes.now) }
{
    // Most strays show in the header.
    if !may_answer(bytes, id) {
        return None;
    }
    let Some(outline) = read_outline(bytes, asked, exact, terms.wanted) else {
        return None;
    };
    Some(judged_by(u16_at(bytes, 2), outline, terms))
}

/// The bytes have the header of a response to a standard query with this identifier and one question.
pub(crate) fn may_answer(bytes: &[u8], id: u16) -> bool
    ensures { result ≡ may_answer id bytes.now }
{
    bytes.len() >= HEADER_LEN
        && BigEndian::read_u16(bytes) == id
        && is_response(u16_at(bytes, 2))
        && is_standard(u16_at(bytes, 2))
        && u16_at(bytes, 4) == 1
}

/// The number of 16 bits at an offset of a header.
fn u16_at(bytes: &[u8], at: usize) -> u16
    requires { at + 2 ≤ length bytes.now }
    ensures { result ≡ big_from at 2 bytes.now }
{
    BigEndian::read_u16(&bytes[at..])
}

/// The flags are those of a response.
pub(crate) fn is_response(flags: u16) -> bool
    ensures { result ≡ has_bit 15 flags }
{
    flags / FLAG_QR % 2 == 1
}

/// The flags are those of a standard query or of the response to one.
pub(crate) fn is_standard(flags: u16) -> bool
    ensures { result ≡ ((flags / 2 ^ 11) % 16 == 0) }
{
    flags / OPCODE % 16 == 0
}
