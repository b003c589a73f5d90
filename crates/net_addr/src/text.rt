//! Addresses from text and to text (RFC 4291, section 2.2; RFC 5952).
ghost use Rattle.std.specs.Prelude.{◌≡◌, Some, IfSome, IfOk};
ghost use Rattle.net_addr.specs.declared.addr.Addr.{Addr as Address};
ghost use Rattle.net_addr.specs.Canonical.{IsCanonical};
ghost use Rattle.net_addr.specs.Reading.{address_of};
ghost use Rattle.net_addr.specs.Text.{text_of, Spells};

use crate::addr::Addr;
use crate::ip::{addr_of, ip_of};
use dns_message::{Bytes, NoMemory};
use std::alloc::Global;
use std::net::IpAddr;

/// The most bytes of a printed text: eight groups of four digits, and seven colons.
const LONGEST: usize = 39;

/// The address that a text spells. It takes no memory.
pub fn read(text: &[u8]) -> Option<Addr>
    ensures value { result ≡ address_of text.now }
    // What is read is spelled so.
    ensures found { IfSome result (Spells text.now) }
    // What is spelled so is read, so a text spells one address at most.
    ensures only { (address : Address) → Spells text.now address → result ≡ Some address }
{
    match IpAddr::parse_ascii(text) {
        Ok(ip) => Some(addr_of(ip)),
        Err(_) => None,
    }
}

/// The text of an address (RFC 5952, sections 4 and 5). What is printed reads as the same address.
pub fn print(alloc: Global, address: Addr) -> Result<Bytes, NoMemory>
    ensures text { IfOk result (λ text. text ≡ text_of address) }
    ensures canonical { IfOk result (λ text. IsCanonical text address) }
    ensures reads { IfOk result (λ text. Spells text address) }
{
    let ip = ip_of(address);
    let mut text = String::with_capacity(alloc, LONGEST)?;
    write!(text, "{ip}")?;
    Ok(Bytes::from_vec(text.into_bytes()))
}
