//! A hosts file as machines have it, and what it answers.

use hosts_file::{Hosts, HostsFault, Name};
use net_addr::{AddrList, Family};
use std::alloc::Global;
use std::test::Fail;

/// As a Debian machine has it, with what people add: comments, tabs, CR, an address and a name that are none,
/// an address alone, a name in other case, a final dot, and an address of a zone, which isn't read.
const FILE: &[u8] =
    b"127.0.0.1\tlocalhost\n127.0.1.1 box # this machine\r\n\n# IPv6\n::1     ip6-localhost ip6-loopback localhost\r\n\
192.0.2.300 box\n192.0.2.1 a..b Www.Test. box#old\n192.0.2.2\nfe80::1%eth0 box\n2001:db8::1 www.test\n  192.0.2.3 fox ; box";

/// The texts of these addresses, with a blank behind each.
fn texts_of(alloc: Global, addresses: &AddrList) -> Result<Vec<u8>, Fail> {
    let mut texts = Vec::new(alloc);
    for address in addresses.as_slice() {
        texts.extend_from_slice(net_addr::print(alloc, *address)?.as_slice())?;
        texts.push(b' ')?;
    }
    Ok(texts)
}

/// What a file says of a name: its addresses and its canonical name.
fn found(alloc: Global, hosts: &Hosts, name: &str, family: Family) -> Result<Vec<u8>, Fail> {
    let name = Name::from_text(alloc, name.as_bytes())?.name;
    let mut texts = texts_of(alloc, &hosts.addresses(alloc, &name, family)?)?;
    if let Some(canonical) = hosts.canonical(alloc, &name, family)? {
        texts.extend_from_slice(canonical.to_text(alloc)?.as_slice())?;
    }
    Ok(texts)
}

/// A name, which addresses are asked, and what the file says, by hand after hosts(5).
const NAMES: [(&str, Family, &str); 8] = [
    ("localhost", Family::Any, "127.0.0.1 ::1 localhost."),
    ("LocalHost.", Family::V6, "::1 ip6-localhost."),
    ("box", Family::Any, "127.0.1.1 192.0.2.1 box."),
    ("www.test", Family::Any, "192.0.2.1 2001:db8::1 Www.Test."),
    ("WWW.TEST", Family::V6, "2001:db8::1 www.test."),
    ("fox", Family::V4, "192.0.2.3 fox."),
    ("ip6-loopback", Family::V4, ""),
    ("old", Family::Any, ""),
];

#[test]
fn names_have_addresses(rt: HostRuntime) -> Result<(), Fail> {
    let alloc = rt.alloc();
    let hosts = Hosts::read(alloc, FILE)?;
    for (name, family, texts) in NAMES.iter() {
        assert!(rt; found(alloc, &hosts, name, *family)?.as_slice() == texts.as_bytes());
    }
    Ok(())
}

/// 20,000 lines with the numbers from 0 on, as `2001:db8:1::9990 host19990 Also19990` for 19,990. The lines 7 and 19,990 have
/// the alias `pair` besides, and line 9,999 has it twice, in two cases.
fn large_file(alloc: Global) -> Result<Vec<u8>, Fail> {
    let mut text = Vec::new(alloc);
    for number in 0..20_000u32 {
        let (high, low) = (number / 10_000, number % 10_000);
        let line = format!(in alloc; "2001:db8:{high}::{low} host{number} Also{number}")?;
        text.extend_from_slice(line.as_bytes())?;
        text.extend_from_slice(match number {
            7 | 19_990 => b" pair\n".as_slice(),
            9_999 => b" pair PAIR\n".as_slice(),
            _ => b"\n".as_slice(),
        })?;
    }
    Ok(text)
}

/// A name and what that file says, by hand after hosts(5): names of the first line, of one in the middle and of the last, in
/// other cases too, a name of three lines, and one of none.
const LARGE: [(&str, &str); 8] = [
    ("host0", "2001:db8:: host0."),
    ("ALSO0", "2001:db8:: host0."),
    ("Host9999", "2001:db8::9999 host9999."),
    ("also10000", "2001:db8:1:: host10000."),
    ("host19999", "2001:db8:1::9999 host19999."),
    ("Also19999", "2001:db8:1::9999 host19999."),
    ("Pair", "2001:db8::7 2001:db8::9999 2001:db8:1::9990 host7."),
    ("host20000", ""),
];

#[test]
fn names_of_a_large_file_have_addresses(rt: HostRuntime) -> Result<(), Fail> {
    let alloc = rt.alloc();
    let hosts = Hosts::read(alloc, large_file(alloc)?.as_slice())?;
    for (name, texts) in LARGE.iter() {
        assert!(rt; found(alloc, &hosts, name, Family::Any)?.as_slice() == texts.as_bytes());
    }
    Ok(())
}

/// A file of the limit's size is read, and one of a byte more is not.
#[test]
fn only_a_file_above_the_limit_is_refused(rt: HostRuntime) -> Result<(), Fail> {
    let alloc = rt.alloc();
    let mut bytes = Vec::with_capacity(alloc, 4_194_305)?;
    bytes.extend_from_slice(b"::1 box #")?;
    bytes.resize(4_194_304, b' ')?;
    let hosts = Hosts::read(alloc, bytes.as_slice())?;
    let name = Name::from_text(alloc, b"box")?.name;
    assert_eq!(rt; hosts.addresses(alloc, &name, Family::Any)?.len(), 1);
    assert!(rt;
        Hosts::empty(alloc)
            .addresses(alloc, &name, Family::Any)?
            .is_empty()
    );
    bytes.push(b'\n')?;
    assert!(rt;
        matches!(
            Hosts::read(alloc, bytes.as_slice()),
            Err(HostsFault::TooLarge)
        )
    );
    Ok(())
}
