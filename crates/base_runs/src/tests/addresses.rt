//! Texts of addresses, as tables.

use dns_message::NoMemory;
use net_addr::{
    Addr, Family, allows, common_prefix, is_mapped, mapped, print, read, reverse_name, scope,
};
use std::alloc::Global;
use std::test::Fail;

/// Texts, and what their address prints as: RFC 4291 (section 2.2), RFC 5952 (sections 2, 4 and 5) and the profile's own table.
const PRINTED: [(&str, &str); 17] = [
    ("192.0.2.53", "192.0.2.53"),
    ("0.10.200.255", "0.10.200.255"),
    ("2001:DB8:0:0:0:0:0:1", "2001:db8::1"),
    ("1:0:0:2:0:0:3:4", "1::2:0:0:3:4"),
    ("1:2:3:4:5:6:7::", "1:2:3:4:5:6:7:0"),
    ("0:0:1::", "0:0:1::"),
    ("::ffff:c000:201", "::ffff:192.0.2.1"),
    ("FF01:0:0:0:0:0:0:101", "ff01::101"),
    ("0:0:0:0:0:0:0:0", "::"),
    ("::13.1.68.3", "::d01:4403"),
    ("0:0:0:0:0:FFFF:129.144.52.38", "::ffff:129.144.52.38"),
    ("2001:db8:0:0:1::1", "2001:db8::1:0:0:1"),
    ("2001:0db8::1:0:0:1", "2001:db8::1:0:0:1"),
    ("2001:db8::0:1:0:0:1", "2001:db8::1:0:0:1"),
    ("2001:db8::1:1:1:1:1", "2001:db8:0:1:1:1:1:1"),
    ("2001:0:0:1:0:0:0:1", "2001:0:0:1::1"),
    (
        "2001:DB8:AAAA:bbbb:CCCC:dddd:EEEE:00a1",
        "2001:db8:aaaa:bbbb:cccc:dddd:eeee:a1",
    ),
];

// Whether the text's address prints so.
fn prints(alloc: Global, text: &str, printed: &str) -> Result<bool, NoMemory> {
    match read(text.as_bytes()) {
        Some(address) => Ok(print(alloc, address)?.as_slice() == printed.as_bytes()),
        None => Ok(false),
    }
}

#[test]
fn texts_print_in_canonical_form(rt: HostRuntime) -> Result<(), Fail> {
    for (text, printed) in PRINTED.iter() {
        assert!(rt; prints(rt.alloc(), text, printed)?);
    }
    Ok(())
}

const REFUSED: [&str; 19] = [
    "1::2::3",
    "12345::",
    "192.0.2.01",
    "fe80::1%eth0",
    "",
    "1:2:3:4::5:6:7:8",
    "1:2:3:4:5:6:7",
    "1:2:3:4:5:6:7:8:9",
    "1:2:3:4:5:6:7:1.2.3.4",
    "::1.2.3.4:5",
    "1.2.3.4::",
    ":1:2:3:4:5:6:7",
    "::g",
    "256.0.0.1",
    "1.2.3",
    "1.2.3.4.5",
    "1..2.3",
    " 1.2.3.4",
    "+1.2.3.4",
];

#[test]
fn other_texts_are_refused(rt: HostRuntime) {
    for text in REFUSED.iter() {
        assert!(rt; read(text.as_bytes()).is_none());
    }
}

#[test]
fn the_first_byte_is_the_highest(rt: HostRuntime) {
    assert!(rt; read(b"192.0.2.53") == Some(Addr::V4(0xc000_0235)));
    let v6 = Addr::V6(0x2001_0db8_0000_0000_0000_0000_c000_0201);
    assert!(rt; read(b"2001:db8::192.0.2.1") == Some(v6));
}

/// RFC 4291 (sections 2.5.6, 2.5.7 and 2.7), RFC 6724 (section 3), RFC 3927.
const SCOPES: [(&str, u8); 16] = [
    ("ff01::1", 1),
    ("ff02::fb", 2),
    ("ff35::1", 5),
    ("ff0e::1", 14),
    ("fe80::1", 2),
    ("febf::1", 2),
    ("::1", 2),
    ("fec0::1", 5),
    ("fc00::1", 14),
    ("2001:db8::1", 14),
    ("169.254.1.2", 2),
    ("127.0.0.53", 2),
    ("10.0.0.1", 14),
    ("::ffff:169.254.1.2", 2),
    ("::ffff:127.0.0.1", 2),
    ("::ffff:192.0.2.1", 14),
];

// The scope of a text's address, and 0 where it is none.
fn scope_of(text: &str) -> u8 {
    match read(text.as_bytes()) {
        Some(address) => scope(address),
        None => 0,
    }
}

#[test]
fn addresses_have_their_scopes(rt: HostRuntime) {
    for (text, wanted) in SCOPES.iter() {
        assert!(rt; scope_of(text) == *wanted);
    }
}

/// The first is RFC 6724's example (section 2.2).
#[test]
fn leading_bits_are_counted(rt: HostRuntime) {
    let local = 0xfe80 << 112;
    assert!(rt; common_prefix(local + 1, local + 2) == 64);
    assert!(rt; common_prefix(local, local) == 64);
    assert!(rt; common_prefix(0x2001_0db8_0001 << 80, 0x2001_0db8_3ffe << 80) == 34);
    assert!(rt; common_prefix(0, 1 << 127) == 0);
}

#[test]
fn families_and_mapped_addresses(rt: HostRuntime) {
    let v4 = Addr::V4(0xc000_0201);
    let v6 = Addr::V6(mapped(v4));
    assert!(rt; v6 == Addr::V6(0xffff_c000_0201));
    assert!(rt; is_mapped(v6) && !is_mapped(v4) && !is_mapped(Addr::V6(0x1_ffff_c000_0201)));
    assert!(rt; allows(Family::Any, v4) && allows(Family::V4, v4) && !allows(Family::V6, v4));
    assert!(rt; allows(Family::Any, v6) && !allows(Family::V4, v6) && allows(Family::V6, v6));
}

/// RFC 1035 (section 3.5) and RFC 3596 (section 2.5).
const REVERSE: [(&str, &str); 3] = [
    ("10.2.0.52", "52.0.2.10.in-addr.arpa."),
    ("192.0.2.1", "1.2.0.192.in-addr.arpa."),
    (
        "4321:0:1:2:3:4:567:89ab",
        "b.a.9.8.7.6.5.0.4.0.0.0.3.0.0.0.2.0.0.0.1.0.0.0.0.0.0.0.1.2.3.4.ip6.arpa.",
    ),
];

// Whether the text's address has this reverse name.
fn has_reverse(alloc: Global, text: &str, name: &str) -> Result<bool, NoMemory> {
    match read(text.as_bytes()) {
        Some(address) => {
            let reverse = reverse_name(alloc, address)?.to_text(alloc)?;
            Ok(reverse.as_slice() == name.as_bytes())
        }
        None => Ok(false),
    }
}

#[test]
fn reverse_names_are_backwards(rt: HostRuntime) -> Result<(), Fail> {
    for (text, name) in REVERSE.iter() {
        assert!(rt; has_reverse(rt.alloc(), text, name)?);
    }
    Ok(())
}
