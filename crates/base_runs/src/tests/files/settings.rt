//! What two files set, after resolv.conf(5), hosts(5) and c-ares' `ares_init`: a file that is absent or can't be read says
//! nothing.

use hosts_file::{Hosts, Name};
use item_list::Bytes;
use machine_setting::read_setting;
use net_addr::{Addr, Family, ServerAddr};
use net_world::MemFiles;
use resolv_options::Options;
use std::alloc::Global;
use std::collections::BTreeMap;
use std::test::Fail;

/// A case: what resolv.conf and the hosts file have, the number of the read that fails, and what they then set: the first
/// server's address and port, the dots, and the address of `box`.
struct Case {
    resolv: &'static str,
    hosts: &'static str,
    fails: u64,
    server: &'static str,
    port: u16,
    ndots: u8,
    host: &'static str,
}

/// No read fails.
const NONE: u64 = 9;

/// Files that say something, of which none, the one or the other can't be read, and two that say nothing.
const CASES: [Case; 4] = [
    Case {
        resolv: "nameserver 192.0.2.53\noptions ndots:3\n",
        hosts: "192.0.2.9 box\n",
        fails: NONE,
        server: "192.0.2.53",
        port: 53,
        ndots: 3,
        host: "192.0.2.9",
    },
    Case {
        resolv: "nameserver 192.0.2.53\noptions ndots:3\n",
        hosts: "192.0.2.9 box\n",
        fails: 0,
        server: "127.0.0.1",
        port: 53,
        ndots: 1,
        host: "192.0.2.9",
    },
    Case {
        resolv: "nameserver 2001:db8::53\n",
        hosts: "192.0.2.9 box\n",
        fails: 1,
        server: "2001:db8::53",
        port: 53,
        ndots: 1,
        host: "",
    },
    Case {
        resolv: "",
        hosts: "",
        fails: NONE,
        server: "127.0.0.1",
        port: 53,
        ndots: 1,
        host: "",
    },
];

/// The files of a case.
fn files_of(alloc: Global, case: &Case) -> Result<MemFiles, Fail> {
    let mut files = BTreeMap::new(alloc);
    let resolv = Bytes::of(alloc, case.resolv.as_bytes())?;
    files.insert(String::from_str(alloc, "/etc/resolv.conf")?, resolv)?;
    let hosts = Bytes::of(alloc, case.hosts.as_bytes())?;
    files.insert(String::from_str(alloc, "/etc/hosts")?, hosts)?;
    Ok(MemFiles::make(files, vec![in alloc; case.fails]?))
}

/// Whether this is the server of the case.
fn is_server(alloc: Global, server: &ServerAddr, case: &Case) -> Result<bool, Fail> {
    let address = net_addr::print(alloc, server.address)?;
    Ok(address.as_slice() == case.server.as_bytes() && server.port == case.port)
}

/// Whether the first server and the dots are those of the case.
fn sets_options(alloc: Global, options: &Options, case: &Case) -> Result<bool, Fail> {
    match options.servers().as_slice() {
        [server, ..] => Ok(options.ndots() == case.ndots && is_server(alloc, server, case)?),
        [] => Ok(false),
    }
}

/// Whether these are the addresses of `box` in the case.
fn are_of_box(alloc: Global, addresses: &[Addr], case: &Case) -> Result<bool, Fail> {
    match addresses {
        [] => Ok(case.host == ""),
        [address] => Ok(net_addr::print(alloc, *address)?.as_slice() == case.host.as_bytes()),
        _ => Ok(false),
    }
}

/// Whether the address of `box` is that of the case.
fn sets_hosts(alloc: Global, hosts: &Hosts, case: &Case) -> Result<bool, Fail> {
    let name = Name::from_text(alloc, b"box")?.name;
    let addresses = hosts.addresses(alloc, &name, Family::Any)?;
    are_of_box(alloc, addresses.as_slice(), case)
}

/// Whether both are as the case has them.
fn sets(alloc: Global, options: &Options, hosts: &Hosts, case: &Case) -> Result<bool, Fail> {
    Ok(sets_options(alloc, options, case)? && sets_hosts(alloc, hosts, case)?)
}

/// Whether these files set what the case has. No other function reads a setting: the clauses of that are long.
fn set_by(alloc: Global, files: &mut MemFiles, case: &Case) -> Result<bool, Fail> {
    let (options, hosts) = read_setting(alloc, files)?;
    sets(alloc, &options, &hosts, case)
}

/// Whether the files of each case set what it has.
fn all_set(alloc: Global) -> Result<bool, Fail> {
    for case in CASES.iter() {
        if !set_by(alloc, &mut files_of(alloc, case)?, case)? {
            return Ok(false);
        }
    }
    Ok(true)
}

#[test]
fn files_set_a_channel(rt: HostRuntime) -> Result<(), Fail> {
    assert!(rt; all_set(rt.alloc())?);
    Ok(())
}

/// Files of which there is none.
fn no_files(alloc: Global) -> MemFiles {
    MemFiles::make(BTreeMap::new(alloc), Vec::new(alloc))
}

// Without files, all is as `Options::plain` has it, and no host has an address.
#[test]
fn no_files_set_nothing(rt: HostRuntime) -> Result<(), Fail> {
    assert!(rt; set_by(rt.alloc(), &mut no_files(rt.alloc()), &CASES[3])?);
    Ok(())
}
