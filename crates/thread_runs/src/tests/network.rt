//! The network.

use std::alloc::Global;
use std::test::Fail;
use test_nameserver::{PeerWorld, Zone};

/// Three hosts with an address each.
const ZONE: &[u8] =
    b"a.test. 60 A 192.0.2.1\nb.test. 60 A 192.0.2.2\nd.test. 60 AAAA 2001:db8::4\n";

/// A network of this zone, which loses by this seed.
pub fn network(alloc: Global, seed: u16) -> Result<PeerWorld, Fail> {
    let Ok(zone) = Zone::read(alloc, ZONE) else {
        return Err("the zone has a fault")?;
    };
    Ok(PeerWorld::make(alloc, zone, seed)?)
}
