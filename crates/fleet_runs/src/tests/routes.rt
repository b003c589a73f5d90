//! Which channel a request goes to. The sums are by hand, of ASCII codes.

use chan_types::{Addr, Bytes, Family, NoMemory, Spec};
use channel_fleet::route;
use std::alloc::Global;
use std::test::*;

/// Where a look-up of this host goes among so many channels: nowhere, if there is none.
fn routed(alloc: Global, host: &[u8], channels: u64) -> Result<Option<u64>, NoMemory> {
    if channels == 0 {
        return Ok(None);
    }
    let spec = Spec::Address {
        host: Bytes::of(alloc, host)?,
        family: Family::Any,
        nosort: false,
    };
    Ok(Some(route(&spec, channels)))
}

// a is 97, b is 98, a full stop 46, t 116, e 101, s 115; a capital counts as its small letter. The names of an address are
// asked with no text.
#[test]
fn by_the_sum_of_the_text(rt: HostRuntime) -> Result<(), Fail> {
    let rows: [(&[u8], u64, u64); 6] = [
        (b"", 16, 0),
        (b"a", 4, 1),
        (b"AB", 7, 6),
        (b"ab", 7, 6),
        (b"a.test", 16, 15),
        (b"a.test", 1, 0),
    ];
    for (host, channels, index) in rows {
        assert!(rt; routed(rt.alloc(), host, channels)? == Some(index));
    }
    let reverse = Spec::Reverse {
        address: Addr::V4(1),
    };
    assert!(rt; route(&reverse, 7) == 0);
    Ok(())
}
