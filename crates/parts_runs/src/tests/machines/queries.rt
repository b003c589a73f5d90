//! The bytes of queries.

use super::address_of_example;
use query_machine::query_bytes;
use std::test::Fail;

/// Whether recursion isn't asked for, the size that is offered, and the query with identifier 0x1234: header and question by
/// RFC 1035, section 4.1, the OPT record by RFC 6891, section 6.1.2.
const QUERIES: [(bool, Option<u16>, &[u8]); 3] = [
    (
        false,
        None,
        b"\x12\x34\x01\0\0\x01\0\0\0\0\0\0\x07example\x03com\0\0\x01\0\x01",
    ),
    (
        true,
        None,
        b"\x12\x34\0\0\0\x01\0\0\0\0\0\0\x07example\x03com\0\0\x01\0\x01",
    ),
    (
        false,
        Some(1232),
        b"\x12\x34\x01\0\0\x01\0\0\0\0\0\x01\x07example\x03com\0\0\x01\0\x01\0\0\x29\x04\xd0\0\0\0\0\0\0",
    ),
];

#[test]
fn queries_have_their_bytes(rt: HostRuntime) -> Result<(), Fail> {
    let alloc = rt.alloc();
    let asked = address_of_example(alloc)?;
    for (norecurse, edns, bytes) in QUERIES.iter() {
        let query = query_bytes(alloc, &asked, 0x1234, *norecurse, *edns)?;
        assert!(rt; query.as_slice() == *bytes);
    }
    Ok(())
}
