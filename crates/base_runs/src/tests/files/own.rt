//! The addresses that texts of a Linux system tell, as `ip addr` showed them there.

use item_list::Bytes;
use net_addr::{Addr, read};
use net_world::MemFiles;
use own_addresses::own_addresses;
use std::alloc::Global;
use std::collections::BTreeMap;
use std::test::Fail;

/// Three files, and the addresses that are taken of them, in order.
struct Case {
    ipv6_route: &'static str,
    if_inet6: &'static str,
    fib_trie: &'static str,
    own: &'static str,
}

/// The routes of a host with a way out, and of one that has none.
const ROUTES_OF_A_HOST: &str = "\
fd000000000000000000000000000000 40 00000000000000000000000000000000 00 00000000000000000000000000000000 00000100 00000001 00000000 00000001     eth0
00000000000000000000000000000000 00 00000000000000000000000000000000 00 fd000000000000000000000000000001 00000400 00000002 00000000 00000003     eth0
00000000000000000000000000000001 80 00000000000000000000000000000000 00 00000000000000000000000000000000 00000000 00000002 00000000 80200001       lo
00000000000000000000000000000000 00 00000000000000000000000000000000 00 00000000000000000000000000000000 ffffffff 00000001 00000000 00200200       lo
";

const ROUTES_OF_LOOPBACK: &str = "\
00000000000000000000000000000001 80 00000000000000000000000000000000 00 00000000000000000000000000000000 00000000 00000002 00000000 80200001       lo
00000000000000000000000000000000 00 00000000000000000000000000000000 00 00000000000000000000000000000000 ffffffff 00000001 00000000 00200200       lo
";

/// A host with an interface of each family beside loopback.
const INET6_OF_A_HOST: &str = "\
00000000000000000000000000000001 01 80 10 80       lo
fd000000000000000000000000000002 04 40 00 82     eth0
fe8000000000000000fc00fffe000001 04 40 20 80     eth0
";

const TRIE_OF_A_HOST: &str = "\
Main:
  +-- 0.0.0.0/0 3 0 5
     |-- 0.0.0.0
        /0 universe UNICAST
     +-- 127.0.0.0/8 2 0 2
        +-- 127.0.0.0/31 1 0 0
           |-- 127.0.0.0
              /8 host LOCAL
           |-- 127.0.0.1
              /32 host LOCAL
        |-- 127.255.255.255
           /32 link BROADCAST
     +-- 192.0.2.0/24 2 0 2
        +-- 192.0.2.0/30 2 0 2
           |-- 192.0.2.0
              /24 link UNICAST
           |-- 192.0.2.2
              /32 host LOCAL
        |-- 192.0.2.255
           /32 link BROADCAST
Local:
  +-- 0.0.0.0/0 3 0 5
     |-- 0.0.0.0
        /0 universe UNICAST
     +-- 127.0.0.0/8 2 0 2
        +-- 127.0.0.0/31 1 0 0
           |-- 127.0.0.0
              /8 host LOCAL
           |-- 127.0.0.1
              /32 host LOCAL
        |-- 127.255.255.255
           /32 link BROADCAST
     +-- 192.0.2.0/24 2 0 2
        +-- 192.0.2.0/30 2 0 2
           |-- 192.0.2.0
              /24 link UNICAST
           |-- 192.0.2.2
              /32 host LOCAL
        |-- 192.0.2.255
           /32 link BROADCAST
";

/// A machine whose loopback alone is up.
const INET6_OF_LOOPBACK: &str = "00000000000000000000000000000001 01 80 10 80       lo\n";

const TRIE_OF_LOOPBACK: &str = "\
Local:
  +-- 127.0.0.0/8 2 0 2
     +-- 127.0.0.0/31 1 0 0
        |-- 127.0.0.0
           /8 host LOCAL
        |-- 127.0.0.1
           /32 host LOCAL
     |-- 127.255.255.255
        /32 link BROADCAST
";

/// A machine whose IPv4 reaches one link.
const TRIE_OF_A_LINK: &str = "\
Local:
  +-- 0.0.0.0/0 3 0 5
     +-- 192.0.2.0/24 2 0 2
        |-- 192.0.2.0
           /24 link UNICAST
        |-- 192.0.2.2
           /32 host LOCAL
";

/// Eight bridges with link-local addresses, a ninth of one site, and behind them three of global scope on one interface: one
/// that is deprecated (flag 20), one that is tentative (flag 40) and one that serves; and one of site-local scope.
const INET6_OF_BRIDGES: &str = "\
fe800000000000000000000000000001 02 40 20 80     br1
fe800000000000000000000000000002 03 40 20 80     br2
fe800000000000000000000000000003 04 40 20 80     br3
fe800000000000000000000000000004 05 40 20 80     br4
fe800000000000000000000000000005 06 40 20 80     br5
fe800000000000000000000000000006 07 40 20 80     br6
fe800000000000000000000000000007 08 40 20 80     br7
fe800000000000000000000000000008 09 40 20 80     br8
fd000000000000000000000000000001 100 40 00 80     br9
20010db8000000000000000000000001 0b 40 00 a0    eth0
20010db8000000000000000000000002 0b 40 00 c0    eth0
20010db8000000000000000000000003 0b 40 00 80    eth0
fec00000000000000000000000000001 0b 40 40 80    eth0
";

const CASES: &[Case] = &[
    // A host.
    Case {
        ipv6_route: ROUTES_OF_A_HOST,
        if_inet6: INET6_OF_A_HOST,
        fib_trie: TRIE_OF_A_HOST,
        own: "fd00::2 fe80::fc:ff:fe00:1 192.0.2.2",
    },
    // No route of IPv6.
    Case {
        ipv6_route: ROUTES_OF_LOOPBACK,
        if_inet6: INET6_OF_A_HOST,
        fib_trie: TRIE_OF_A_HOST,
        own: "192.0.2.2",
    },
    // No route of IPv4.
    Case {
        ipv6_route: ROUTES_OF_A_HOST,
        if_inet6: INET6_OF_A_HOST,
        fib_trie: TRIE_OF_A_LINK,
        own: "fd00::2 fe80::fc:ff:fe00:1",
    },
    // Loopback alone.
    Case {
        ipv6_route: ROUTES_OF_LOOPBACK,
        if_inet6: INET6_OF_LOOPBACK,
        fib_trie: TRIE_OF_LOOPBACK,
        own: "",
    },
    // Many bridges.
    Case {
        ipv6_route: ROUTES_OF_A_HOST,
        if_inet6: INET6_OF_BRIDGES,
        fib_trie: TRIE_OF_A_HOST,
        own: "fe80::1 fd00::1 fec0::1 192.0.2.2 2001:db8::3 fe80::2 fe80::3 fe80::4",
    },
    // Other texts.
    Case {
        ipv6_route: ROUTES_OF_A_HOST,
        if_inet6: "20010db8000000000000000000000001 01\n20010db800000000000000000000001 01 40 00 80 lo\ng0010db8000000000000000000000001 01 40 00 80 lo\n",
        fib_trie: "/32 host LOCAL\n|-- 192.0.2.1\n+-- 192.0.2.0/24 2 0 2\n/32 host LOCAL\n|-- 192.0.2.256\n/32 host LOCAL\n|-- 192.0.2.9\n/32 link BROADCAST\n/32 host LOCAL\n|-- 0.0.0.0\n/0 link UNICAST\n",
        own: "192.0.2.9",
    },
];

/// The files of a case.
fn files_of(alloc: Global, case: &Case) -> Result<MemFiles, Fail> {
    let mut files = BTreeMap::new(alloc);
    let routes = Bytes::of(alloc, case.ipv6_route.as_bytes())?;
    files.insert(String::from_str(alloc, "/proc/net/ipv6_route")?, routes)?;
    let inet6 = Bytes::of(alloc, case.if_inet6.as_bytes())?;
    files.insert(String::from_str(alloc, "/proc/net/if_inet6")?, inet6)?;
    let trie = Bytes::of(alloc, case.fib_trie.as_bytes())?;
    files.insert(String::from_str(alloc, "/proc/net/fib_trie")?, trie)?;
    Ok(MemFiles::make(files, Vec::new(alloc)))
}

/// The addresses that a text has, between blanks.
fn addresses_in(alloc: Global, text: &str) -> Result<Vec<Addr>, Fail> {
    let mut addresses = Vec::new(alloc);
    for word in text.split_whitespace() {
        match read(word.as_bytes()) {
            Some(address) => addresses.push(address)?,
            None => Err("no address")?,
        }
    }
    Ok(addresses)
}

/// Whether the files of a case tell its addresses, and no other.
fn tells(alloc: Global, case: &Case) -> Result<bool, Fail> {
    let own = own_addresses(alloc, &mut files_of(alloc, case)?)?;
    let expected = addresses_in(alloc, case.own)?;
    Ok(own.as_slice() == expected.as_slice())
}

#[test]
fn files_tell_the_addresses(rt: HostRuntime) -> Result<(), Fail> {
    for case in CASES {
        assert!(rt; tells(rt.alloc(), case)?);
    }
    Ok(())
}

/// Whether nothing is told where there is no file.
fn tells_nothing(alloc: Global) -> Result<bool, Fail> {
    let mut files = MemFiles::make(BTreeMap::new(alloc), Vec::new(alloc));
    Ok(own_addresses(alloc, &mut files)?.is_empty())
}

// A system without these files tells no address.
#[test]
fn no_files_tell_none(rt: HostRuntime) -> Result<(), Fail> {
    assert!(rt; tells_nothing(rt.alloc())?);
    Ok(())
}
