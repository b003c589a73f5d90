//! What a reader says of bytes, as one line of text: `!` and the fault, or what was read.

use crate::cases::{Case, Kind};
use crate::files::{put_hosts, put_resolv, put_run, put_zone};
use crate::records::{put_decoded, put_rdata};
use dns_message::Name;
use item_list::NoMemory;
use net_addr::{print, read};
use std::alloc::Global;
use std::fmt::Debug;

/// What the reader of a case says, with `;` in place of each LF.
pub fn told(alloc: Global, case: &Case) -> Result<Vec<u8>, NoMemory> {
    let mut out = Vec::new(alloc);
    put_case(alloc, &mut out, case.kind, case.bytes.as_slice())?;
    for byte in out.as_mut_slice() {
        if *byte == b'\n' {
            *byte = b';';
        }
    }
    Ok(out)
}

/// Puts what the reader of this kind says of the bytes.
fn put_case(alloc: Global, out: &mut Vec<u8>, kind: Kind, bytes: &[u8]) -> Result<(), NoMemory> {
    match kind {
        Kind::Message => put_decoded(alloc, out, bytes),
        Kind::Rdata => put_rdata(alloc, out, bytes),
        Kind::Name => put_name(alloc, out, bytes),
        Kind::Address => put_address(alloc, out, bytes),
        Kind::Resolv => put_resolv(alloc, out, bytes),
        Kind::Hosts => put_hosts(alloc, out, bytes),
        Kind::Zone => put_zone(alloc, out, bytes),
        Kind::Run => put_run(alloc, out, bytes),
    }
}

/// Puts text.
pub fn put(out: &mut Vec<u8>, text: &[u8]) -> Result<(), NoMemory> {
    out.extend_from_slice(text)?;
    Ok(())
}

/// Puts `!` and a fault.
pub fn put_fault<F: Debug>(alloc: Global, out: &mut Vec<u8>, fault: &F) -> Result<(), NoMemory> {
    put(out, format!(in alloc; "!{fault:?}")?.as_bytes())
}

/// Puts the name that a text is, and whether it ends with a dot.
fn put_name(alloc: Global, out: &mut Vec<u8>, text: &[u8]) -> Result<(), NoMemory> {
    match Name::from_text(alloc, text) {
        Ok(found) => {
            put(out, found.name.to_text(alloc)?.as_slice())?;
            put(out, if found.absolute { b" absolute" } else { b"" })
        }
        Err(fault) => put_fault(alloc, out, &fault),
    }
}

/// Puts the address that a text is.
fn put_address(alloc: Global, out: &mut Vec<u8>, text: &[u8]) -> Result<(), NoMemory> {
    match read(text) {
        Some(address) => put(out, print(alloc, address)?.as_slice()),
        None => put(out, b"!"),
    }
}
