//! Stored runs as texts, by the manual of their format, and what areplay puts of each.

use super::{RUN, Row, first_wrong};
use std::test::Fail;

/// A run that asks for a name below `onion`, which isn't found (RFC 7686, section 2), and is destroyed.
pub const ONION: &[u8] = b"journal 1
option 2000 3 1 0 00000010 0 0 1232
server 192.0.2.53 53
hosts -
0 0 accept 1 q 782e6f6e696f6e 1 1 ( 0 )
0 0 take 1
0 0 destroy
end
";

/// The same without its first entry.
const NOT_ACCEPTED: &[u8] = b"journal 1
option 2000 3 1 0 00000010 0 0 1232
server 192.0.2.53 53
hosts -
0 0 take 1
0 0 destroy
end
";

/// A request for the addresses of example.com is in flight, and one for a name below `onion` is ready.
const UNFINISHED: &[u8] = b"journal 1
option 2000 3 1 0 00000010 0 0 1232
server 192.0.2.53 53
hosts -
0 0 accept 1 q 6578616d706c652e636f6d 1 1 ( 0 )
0 0 accept 2 q 782e6f6e696f6e 1 1 ( 0 )
0 0 start 1 0 0 0 7 - 0
end
";

/// A request is answered with the address 192.0.2.1 (RFC 1035, section 4.1), one is cancelled, and one destroyed.
const FINISHED: &[u8] = b"journal 1
option 2000 3 1 0 00000010 0 0 1232
server 192.0.2.53 53
hosts -
0 0 accept 1 q 6578616d706c652e636f6d 1 1 ( 0 )
0 0 start 1 0 0 0 7 - 0
0 0 arrive 0 0 00078180000100010000000007657861\
6d706c6503636f6d0000010001c00c000100010000003c0004c0000201
0 0 take 1
0 0 accept 2 q 6578616d706c652e636f6d 1 1 ( 0 )
0 0 cancel
0 0 take 2
0 0 accept 3 q 6578616d706c652e636f6d 1 1 ( 0 )
0 0 destroy
0 0 take 3
end
";

/// The same where the reply has another identifier, so that nothing is ready at the first Take.
const OTHER_REPLY: &[u8] = b"journal 1
option 2000 3 1 0 00000010 0 0 1232
server 192.0.2.53 53
hosts -
0 0 accept 1 q 6578616d706c652e636f6d 1 1 ( 0 )
0 0 start 1 0 0 0 7 - 0
0 0 arrive 0 0 00088180000100010000000007657861\
6d706c6503636f6d0000010001c00c000100010000003c0004c0000201
0 0 take 1
end
";

/// A host that the hosts file has, `192.0.2.7 box`, and a journal with no entry.
const HOSTS: &[u8] = b"journal 1
option 2000 3 1 0 00000010 0 0 1232
server 192.0.2.53 53
hosts 3139322e302e322e3720626f780a
0 0 accept 1 a 626f78 0 0 ( 0 )
0 0 take 1
end
";

const EMPTY: &[u8] = b"journal 1
option 2000 3 1 0 00000010 0 0 1232
server 192.0.2.53 53
hosts -
end
";

const ROWS: [Row<'static>; 7] = [
    Row {
        file: Some(ONION),
        put: "lawful 3 entries 1 accepted\n1 4 ENOTFOUND\n",
        ..RUN
    },
    Row {
        file: Some(NOT_ACCEPTED),
        status: 1,
        put: "unlawful 0\n",
        ..RUN
    },
    Row {
        file: Some(UNFINISHED),
        put: "lawful 3 entries 2 accepted\n1 pending\n2 4 ENOTFOUND\n",
        ..RUN
    },
    Row {
        file: Some(FINISHED),
        put: "lawful 10 entries 3 accepted\n1 0 SUCCESS\n2 24 ECANCELLED\n3 16 EDESTRUCTION\n",
        ..RUN
    },
    Row {
        file: Some(OTHER_REPLY),
        status: 1,
        put: "unlawful 3\n",
        ..RUN
    },
    Row {
        file: Some(HOSTS),
        put: "lawful 2 entries 1 accepted\n1 0 SUCCESS\n",
        ..RUN
    },
    Row {
        file: Some(EMPTY),
        put: "lawful 0 entries 0 accepted\n",
        ..RUN
    },
];

#[test]
fn stored_runs_are_told(rt: HostRuntime) -> Result<(), Fail> {
    assert_eq!(rt; first_wrong(rt.alloc(), &ROWS)?, None);
    Ok(())
}
