//! The bytes of a query.

ghost use Rattle.std.specs.Prelude.{◌≡◌, ◌++◌, IfOk, OnOk};
ghost use Rattle.channel_model.specs.Past.{query_for};
ghost use Rattle.dns_message.specs.Spelling.{message_bytes};
ghost use Rattle.query_machine.specs.Query.{header_of_query, opt_of_query, question_of_query};

use dns_message::numbers::{FLAG_RD, KIND_OPT};
use dns_message::{Name, Question};
use item_list::{Bytes, NoMemory};
use std::alloc::Global;

/// The length of a header (RFC 1035, section 4.1.1).
const HEADER_LEN: usize = 12;

/// The length of a question's kind and class (RFC 1035, section 4.1.2).
const TAIL_LEN: usize = 4;

/// The length of an OPT record without options (RFC 6891, section 6.1.2).
const OPT_LEN: usize = 11;

/// The bytes of a query with this identifier and this one question: RD unless `norecurse` is set, and an OPT record that
/// offers replies of `edns` bytes, if there is one.
pub fn query_bytes(
    alloc: Global,
    asked: &Question,
    id: u16,
    norecurse: bool,
    edns: Option<u16>,
) -> Result<Bytes, NoMemory>
    ensures { IfOk result (λ bytes. bytes ≡ message_bytes (query_for id asked.now norecurse edns)) }
{
    let size = HEADER_LEN + asked.name.wire_len() + TAIL_LEN + OPT_LEN;
    let mut out = Vec::with_capacity(alloc, size)?;
    out.extend_from_slice(&header(id, norecurse, edns.is_some()))?;
    put_question(&mut out, &asked.name, asked.kind, asked.class)?;
    if let Some(size) = edns {
        out.extend_from_slice(&opt(size))?;
    }
    Ok(Bytes::from_vec(out))
}

/// The header of a query with one question, and with one additional record or none.
fn header(id: u16, norecurse: bool, edns: bool) -> [u8; 12]
    ensures { result ≡ header_of_query id norecurse edns }
{
    let [high, low] = id.to_be_bytes();
    let flags = if norecurse { 0 } else { FLAG_RD };
    let [flags, _] = flags.to_be_bytes();
    let records = if edns { 1 } else { 0 };
    [high, low, flags, 0, 0, 1, 0, 0, 0, 0, 0, records]
}

/// Writes a question.
fn put_question(out: &mut Vec<u8>, name: &Name, kind: u16, class: u16) -> Result<(), NoMemory>
    ensures { OnOk result (out.new.items ≡ out.old.items ++ question_of_query name.now kind class) }
{
    out.extend_from_slice(name.as_wire())?;
    let [kind_high, kind_low] = kind.to_be_bytes();
    let [class_high, class_low] = class.to_be_bytes();
    out.extend_from_slice(&[0, kind_high, kind_low, class_high, class_low])?;
    Ok(())
}

/// An OPT record of version 0 without options, which offers replies of this size.
fn opt(size: u16) -> [u8; 11]
    ensures { result ≡ opt_of_query size }
{
    let [kind_high, kind_low] = KIND_OPT.to_be_bytes();
    let [high, low] = size.to_be_bytes();
    [0, kind_high, kind_low, high, low, 0, 0, 0, 0, 0, 0]
}
