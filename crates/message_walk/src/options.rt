//! What an OPT record says that matters for a response code (RFC 6891, sections 6.1.2 and 6.1.3).

ghost use Rattle.std.specs.Prelude.{◌≡◌, is_ok, option_map};
ghost use Rattle.std.specs.Option.{option_copied};
ghost use Rattle.edns_opt.specs.Reading.{first_option, options_of};
ghost use Rattle.message_walk.specs.Sections.{opt_by};

use crate::sections::OptSeen;
use dns_message::numbers::KIND_OPT;

/// What lies above the eight bits of the response code in an OPT record's ttl.
const EXTENDED: u32 = 0x0100_0000;

/// What a record of this kind, ttl and rdata says if it is an OPT record.
pub fn opt_by(kind: u16, ttl: u32, rdata: &[u8]) -> OptSeen
    ensures { result ≡ opt_by kind ttl rdata.now }
{
    if kind != KIND_OPT {
        return OptSeen::Absent;
    }
    if are_options(rdata) {
        OptSeen::Extends((ttl / EXTENDED) as u8)
    } else {
        OptSeen::Unread
    }
}

/// The bytes are options, one behind the other.
fn are_options(rdata: &[u8]) -> bool
    ensures { result ≡ is_ok (options_of rdata.now) }
{
    let mut rest = rdata;
    while !rest.is_empty() {
        let Some(behind) = behind_option(rest) else {
            return false;
        };
        rest = behind;
    }
    true
}

/// The bytes behind the option at the front, where a whole one stands there.
fn behind_option(bytes: &[u8]) -> Option<&[u8]>
    ensures { option_copied result ≡ option_map (λ first. first.1) (first_option bytes.now) }
{
    let [_, _, high, low, rest @ ..] = bytes else {
        return None;
    };
    let len = u16::from_be_bytes([*high, *low]) as usize;
    if rest.len() < len {
        return None;
    }
    Some(&rest[len..])
}
