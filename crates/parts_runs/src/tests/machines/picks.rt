//! Which server is next.

use chan_types::{KeyList, ServerKey};
use net_addr::{Addr, ServerAddr};
use query_machine::Servers;
use std::test::Fail;

/// Where the servers of a new list are.
const HOST: ServerAddr = ServerAddr {
    address: Addr::V4(0xc000_0201),
    port: 53,
};

/// Of three servers how many are in use, where the order begins, and which one is next. Ties go by the order of the list from
/// the place where it begins, as the order turns.
const PICKS: [(u32, u32, u32); 5] = [(3, 0, 0), (3, 1, 1), (3, 2, 2), (2, 1, 1), (1, 0, 0)];

#[test]
fn ties_go_in_order(rt: HostRuntime) -> Result<(), Fail> {
    let servers = Servers::make(rt.alloc(), 3)?;
    for row in PICKS.iter() {
        let (used, first, picked) = *row;
        assert!(rt; used != 0 && used <= 3 && first < used);
        assert!(rt; servers.pick(used, first) == picked);
    }
    Ok(())
}

// The servers 0 and 1 fail once each, so 2 is best; it fails twice, so 0 and 1 are; 1 is good again.
#[test]
fn fewer_failures_go_first(rt: HostRuntime) -> Result<(), Fail> {
    let mut servers = Servers::make(rt.alloc(), 3)?;
    servers.failed(0);
    assert_eq!(rt; servers.pick(3, 0), 1);
    servers.failed(1);
    assert_eq!(rt; servers.pick(3, 0), 2);
    servers.failed(2);
    servers.failed(2);
    assert_eq!(rt;
        (servers.pick(3, 0), servers.pick(3, 1), servers.pick(3, 2)),
        (0, 1, 0)
    );
    servers.good(1);
    assert_eq!(rt; (servers.pick(3, 0), servers.pick(1, 0)), (1, 0));
    Ok(())
}

// Of the servers 0 to 2, where 2 has failed once, the new list has that one, behind a new one.
#[test]
fn a_server_that_stays_keeps_its_count(rt: HostRuntime) -> Result<(), Fail> {
    let alloc = rt.alloc();
    let mut servers = Servers::make(alloc, 3)?;
    servers.failed(2);
    let list = KeyList::of(
        alloc,
        &[
            ServerKey {
                key: 3,
                address: HOST,
            },
            ServerKey {
                key: 2,
                address: HOST,
            },
        ],
    )?;
    servers.renew(&list)?;
    assert_eq!(rt; (servers.pick(2, 0), servers.pick(2, 1)), (3, 3));
    servers.failed(3);
    servers.failed(3);
    assert_eq!(rt; servers.pick(2, 0), 2);
    Ok(())
}
