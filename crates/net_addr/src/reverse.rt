//! The name under which the names of an address stand (RFC 1035, section 3.5; RFC 3596, section 2.5).
ghost use Rattle.std.specs.Prelude.{◌≡◌, ◌<◌, [], ◌∷◌, map, IfOk};
ghost use Rattle.std.specs.Char.{digit_char};
ghost use Rattle.dns_message.specs.Name.{IsName};
ghost use Rattle.net_addr.specs.declared.addr.Addr.TheVariants.{V4, V6};
ghost use Rattle.net_addr.specs.Reverse.{digits_backwards as backwards, reverse_labels};

use crate::addr::Addr;
use dns_message::{Name, NameFault, NoMemory};
use std::alloc::Global;
use std::string::ToString;

/// The name under which the names of an address stand: an IPv4 address's four numbers backwards in in-addr.arpa, an
/// IPv6 address's 32 hexadecimal digits backwards in ip6.arpa.
pub fn reverse_name(alloc: Global, address: Addr) -> Result<Name, NoMemory>
    ensures { IfOk result (λ name. name ≡ reverse_labels address) }
{
    match address {
        Addr::V4(bits) => reverse_v4(alloc, bits),
        Addr::V6(bits) => reverse_v6(alloc, bits),
    }
}

fn reverse_v4(alloc: Global, bits: u32) -> Result<Name, NoMemory>
    ensures { IfOk result (λ name. name ≡ reverse_labels (V4 bits)) }
{
    let [a, b, c, d] = bits.to_be_bytes();
    let a = a.to_string(alloc)?;
    let b = b.to_string(alloc)?;
    let c = c.to_string(alloc)?;
    let d = d.to_string(alloc)?;
    name_of(
        alloc,
        &[
            d.as_bytes(),
            c.as_bytes(),
            b.as_bytes(),
            a.as_bytes(),
            b"in-addr",
            b"arpa",
        ],
    )
}

fn reverse_v6(alloc: Global, bits: u128) -> Result<Name, NoMemory>
    ensures { IfOk result (λ name. name ≡ reverse_labels (V6 bits)) }
{
    let digits = digits_backwards(bits);
    let mut labels = single_labels(alloc, &digits)?;
    labels.push(b"ip6")?;
    labels.push(b"arpa")?;
    name_of(alloc, &labels)
}

/// Each digit as a label, with room for two more.
fn single_labels<'a>(alloc: Global, digits: &'a [u8; 32]) -> Result<Vec<&'a [u8]>, NoMemory>
    ensures { IfOk result (λ labels.
        map (λ label. label.now) labels.items ≡ map (λ digit. digit ∷ []) digits.now) }
{
    let mut labels = Vec::with_capacity(alloc, digits.len() + 2)?;
    for k in 0..digits.len() {
        labels.push(&digits[k..k + 1])?;
    }
    Ok(labels)
}

/// The 32 hexadecimal digits of an address, in lower case, the last first.
fn digits_backwards(bits: u128) -> [u8; 32]
    ensures { result ≡ backwards bits }
{
    let mut digits = [b'0'; 32];
    for k in 0..32 {
        digits[k] = hex_digit((bits >> (4 * k) & 0xf) as u8);
    }
    digits
}

fn hex_digit(value: u8) -> u8
    requires { value < 16 }
    ensures { result ≡ digit_char value }
{
    if value < 10 {
        b'0' + value
    } else {
        b'a' + (value - 10)
    }
}

/// The name of labels that make one.
fn name_of(alloc: Global, labels: &[&[u8]]) -> Result<Name, NoMemory>
    requires { IsName (map (λ label. label.now) labels.now) }
    ensures { IfOk result (λ name. name ≡ map (λ label. label.now) labels.now) }
{
    match Name::from_labels(alloc, labels) {
        Ok(name) => Ok(name),
        Err(NameFault::NoMemory) => Err(NoMemory),
        Err(_) => unreachable!(),
    }
}
