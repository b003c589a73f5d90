//! Adding an OPT record to a message (RFC 6891, section 6.1).

ghost use Rattle.std.specs.Prelude.{◌≡◌, ◌+◌, ◌<◌, ◌≤◌, ◌^◌, [], ◌∷◌, ◌++◌, length, OnOk, IfOk, Some, Ok};
ghost use Rattle.edns_opt.specs.Options.{option_spelling, spelling, FitsOption, AreOptions};
ghost use Rattle.dns_message.specs.Numbers.{kind_opt};
ghost use Rattle.edns_opt.specs.Opt.{ttl_of, opt_records, message_with};
ghost use Rattle.edns_opt.specs.Reading.{opt_of};

use crate::opt::{DO_BIT, EdnsItem, Opt};
use dns_message::numbers::KIND_OPT;
use dns_message::{Message, Name, Record};
use item_list::{Bytes, NoMemory};
use std::alloc::Global;

/// The message with an OPT record behind its other additional records: its owner name is the root, and its bits Z are
/// zero (RFC 6891, section 6.1). `Opt::fits` tests the second condition. For want of memory the message is dropped.
pub fn with_opt(alloc: Global, message: Message, opt: &Opt) -> Result<Message, NoMemory>
    requires room { length message.additionals < 65535 }
    requires fits { length (spelling opt.now.options) ≤ 65535 }
    ensures added { IfOk result (λ added. added ≡ message_with message opt.now) }
    // Where there was none, finding after adding gives the same.
    ensures found_again { opt_records message ≡ [] → IfOk result (λ added. opt_of added ≡ Ok (Some opt.now)) }
{
    let rdata = spelling_of(alloc, opt.options.as_slice())?;
    let mut added = message;
    added.additionals.push(opt_record(
        alloc,
        opt.size,
        ttl_of(opt.ext_rcode, opt.version, opt.do_bit),
        rdata,
    ))?;
    Ok(added)
}

/// An OPT record with the root as its owner name.
fn opt_record(alloc: Global, size: u16, ttl: u32, rdata: Bytes) -> Record
    ensures { result ≡ record { name = []; kind = kind_opt; class = size; ttl = ttl; rdata = rdata } }
{
    Record {
        name: Name::root(alloc),
        kind: KIND_OPT,
        class: size,
        ttl,
        rdata,
    }
}

/// The ttl of an OPT record, its bits Z zero.
fn ttl_of(ext_rcode: u8, version: u8, do_bit: bool) -> u32
    ensures { result ≡ ttl_of ext_rcode version do_bit 0 }
{
    let flags = if do_bit { DO_BIT } else { 0 };
    u32::from_be_bytes([ext_rcode, version, flags, 0])
}

/// The options on the wire.
fn spelling_of(alloc: Global, items: &[EdnsItem]) -> Result<Bytes, NoMemory>
    requires { length (spelling items.now) ≤ 65535 }
    ensures { IfOk result (λ bytes. AreOptions bytes items.now) }
{
    let mut out = Vec::new(alloc);
    for item in items {
        put_option(&mut out, item)?;
    }
    Ok(Bytes::from_vec(out))
}

/// Writes an option: its code, its length and its content.
fn put_option(out: &mut Vec<u8>, item: &EdnsItem) -> Result<(), NoMemory>
    requires { length item.now.content < 2 ^ 16 }
    ensures written { OnOk result (out.new.items ≡ out.old.items ++ option_spelling item.now) }
    ensures fits { OnOk result (FitsOption item.now) }
{
    out.extend_from_slice(&item.code.to_be_bytes())?;
    out.extend_from_slice(&(item.content.len() as u16).to_be_bytes())?;
    out.extend_from_slice(item.content.as_slice())?;
    Ok(())
}
