//! A query in the form in which most are written, and its cookie without reading it as a message (RFC 1035, section 4.1).

ghost use Rattle.std.specs.Prelude.{◌≡◌, ◌≤◌, ◌+◌, ◌++◌, true, length, IfOk, OnOk};
ghost use Rattle.edns_opt.specs.Options.{option_spelling};
ghost use Rattle.dns_cookie.specs.Cookie.{cookie_option};
ghost use Rattle.dns_cookie.specs.Plain as meaning;
ghost use Rattle.dns_cookie.specs.Plain.{IsPlain};

use crate::adding::COOKIE_CODE;
use crate::places::u16_at;
use dns_message::numbers::KIND_OPT;
use dns_message::run_at;
use item_list::{Bytes, NoMemory};
use std::alloc::Global;

/// The length of a header.
const HEADER_LEN: usize = 12;

/// The length of what stands behind the labels: the root's byte, a question's kind and class, and an empty OPT record.
const ENDING_LEN: usize = 16;

/// Whether it has one question, whose name has no pointer, and behind it nothing but an empty OPT record.
pub(crate) fn is_plain(query: &[u8]) -> bool
    ensures { result ≡ true → IsPlain query.now }
{
    if query.len() < HEADER_LEN {
        return false;
    }
    let counts = has_counts(query);
    if !counts {
        return false;
    }
    let behind = &query[HEADER_LEN..];
    let Ok(name) = run_at(behind, 0, 0, 1) else {
        return false;
    };
    has_ending(&behind[name.stop..])
}

/// Whether a header has one question and one additional record.
fn has_counts(query: &[u8]) -> bool
    requires { 12 ≤ length query.now }
    ensures { result ≡ meaning.has_counts query.now }
{
    u16_at(query, 4) == 1
        && u16_at(query, 6) == 0
        && u16_at(query, 8) == 0
        && u16_at(query, 10) == 1
}

/// Whether they are the root's byte, a question's kind and class, and an empty OPT record, whose owner is the root.
fn has_ending(bytes: &[u8]) -> bool
    ensures { result ≡ meaning.has_ending bytes.now }
{
    bytes.len() == ENDING_LEN
        && bytes[0] == 0
        && bytes[5] == 0
        && u16_at(bytes, 6) == KIND_OPT
        && u16_at(bytes, 14) == 0
}

/// Such a query with a cookie, in an option of its OPT record.
pub(crate) fn extended(alloc: Global, query: &[u8], cookie: &[u8]) -> Result<Bytes, NoMemory>
    requires cookie { length cookie.now ≤ 40 }
    requires most { length query.now + 44 ≤ 65535 }
    ensures { IfOk result (λ sent. sent ≡ meaning.extended cookie.now query.now) }
{
    let mut out = Vec::with_capacity(alloc, query.len() + 4 + cookie.len())?;
    out.extend_from_slice(&query[..query.len().saturating_sub(2)])?;
    out.extend_from_slice(&(cookie.len() as u16 + 4).to_be_bytes())?;
    push_option(&mut out, cookie)?;
    Ok(Bytes::from_vec(out))
}

/// Puts the option that carries a cookie behind the bytes.
pub(crate) fn push_option(out: &mut Vec<u8>, cookie: &[u8]) -> Result<(), NoMemory>
    requires { length cookie.now ≤ 40 }
    ensures { OnOk result (out.new.items ≡ out.old.items ++ option_spelling (cookie_option cookie.now)) }
{
    out.extend_from_slice(&COOKIE_CODE.to_be_bytes())?;
    out.extend_from_slice(&(cookie.len() as u16).to_be_bytes())?;
    out.extend_from_slice(cookie)?;
    Ok(())
}
