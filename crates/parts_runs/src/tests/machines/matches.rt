//! Which messages answer a query.

use super::{address_of_example, judged_twice, plain_terms};
use chan_types::Status;
use query_machine::Judged;
use std::test::Fail;

/// Whether letters' case counts, the bytes, and whether they answer the query of identifier 0x1234 for
/// the addresses of example.com: header and question by RFC 1035, section 4.1, OPT records by RFC 6891, section 6.1.2.
const MESSAGES: [(bool, &[u8], bool); 22] = [
    // a reply without records
    (
        true,
        b"\x12\x34\x81\x80\0\x01\0\0\0\0\0\0\x07example\x03com\0\0\x01\0\x01",
        true,
    ),
    // one with an OPT record
    (
        false,
        b"\x12\x34\x81\x80\0\x01\0\0\0\0\0\x01\x07example\x03com\0\0\x01\0\x01\0\0\x29\x04\xd0\0\0\0\0\0\0",
        true,
    ),
    // no byte
    (false, b"", false),
    // a header that is cut
    (false, b"\x12\x34\x81\x80\0\x01\0\0\0\0\0", false),
    // a question that is cut
    (
        false,
        b"\x12\x34\x81\x80\0\x01\0\0\0\0\0\0\x07example\x03com\0\0\x01\0",
        false,
    ),
    // a label of another kind
    (
        false,
        b"\x12\x34\x81\x80\0\x01\0\0\0\0\0\0\x40\0\x01\0\x01",
        false,
    ),
    // a pointer to itself
    (
        false,
        b"\x12\x34\x81\x80\0\x01\0\0\0\0\0\0\xc0\x0c\0\x01\0\x01",
        false,
    ),
    // a name of 256 bytes
    (
        false,
        b"\x12\x34\x81\x80\0\x01\0\0\0\0\0\0\x3faaaaaaaaaaaaaaaaaaaaaaaaaaaaaaaaaaaaaaaaaaaaaaaaaaaaaaaaaaaaaaa\x3faaaaaaaaaaaaaaaaaaaaaaaaaaaaaaaaaaaaaaaaaaaaaaaaaaaaaaaaaaaaaaa\x3faaaaaaaaaaaaaaaaaaaaaaaaaaaaaaaaaaaaaaaaaaaaaaaaaaaaaaaaaaaaaaa\x3eaaaaaaaaaaaaaaaaaaaaaaaaaaaaaaaaaaaaaaaaaaaaaaaaaaaaaaaaaaaaaa\0\0\x01\0\x01",
        false,
    ),
    // an address of 3 bytes
    (
        false,
        b"\x12\x34\x81\x80\0\x01\0\x01\0\0\0\0\x07example\x03com\0\0\x01\0\x01\xc0\x0c\0\x01\0\x01\0\0\0\x3c\0\x03\xc0\0\x02",
        false,
    ),
    // a byte behind the reply
    (
        false,
        b"\x12\x34\x81\x80\0\x01\0\0\0\0\0\0\x07example\x03com\0\0\x01\0\x01\0",
        false,
    ),
    // an OPT record whose option is cut
    (
        false,
        b"\x12\x34\x81\x80\0\x01\0\0\0\0\0\x01\x07example\x03com\0\0\x01\0\x01\0\0\x29\x04\xd0\0\0\0\0\0\x03\0\x0a\0",
        false,
    ),
    // two OPT records
    (
        false,
        b"\x12\x34\x81\x80\0\x01\0\0\0\0\0\x02\x07example\x03com\0\0\x01\0\x01\0\0\x29\x04\xd0\0\0\0\0\0\0\0\0\x29\x04\xd0\0\0\0\0\0\0",
        false,
    ),
    // the question twice
    (
        false,
        b"\x12\x34\x81\x80\0\x02\0\0\0\0\0\0\x07example\x03com\0\0\x01\0\x01\xc0\x0c\0\x01\0\x01",
        false,
    ),
    // no question
    (false, b"\x12\x34\x81\x80\0\0\0\0\0\0\0\0", false),
    // another identifier
    (
        false,
        b"\x12\x35\x81\x80\0\x01\0\0\0\0\0\0\x07example\x03com\0\0\x01\0\x01",
        false,
    ),
    // a query
    (
        false,
        b"\x12\x34\x01\0\0\x01\0\0\0\0\0\0\x07example\x03com\0\0\x01\0\x01",
        false,
    ),
    // a response to another kind of query
    (
        false,
        b"\x12\x34\x89\x80\0\x01\0\0\0\0\0\0\x07example\x03com\0\0\x01\0\x01",
        false,
    ),
    // another case of a letter
    (
        false,
        b"\x12\x34\x81\x80\0\x01\0\0\0\0\0\0\x07Example\x03com\0\0\x01\0\x01",
        true,
    ),
    // another case, which counts
    (
        true,
        b"\x12\x34\x81\x80\0\x01\0\0\0\0\0\0\x07Example\x03com\0\0\x01\0\x01",
        false,
    ),
    // another name
    (
        false,
        b"\x12\x34\x81\x80\0\x01\0\0\0\0\0\0\x07example\x03net\0\0\x01\0\x01",
        false,
    ),
    // another kind
    (
        false,
        b"\x12\x34\x81\x80\0\x01\0\0\0\0\0\0\x07example\x03com\0\0\x1c\0\x01",
        false,
    ),
    // another class
    (
        false,
        b"\x12\x34\x81\x80\0\x01\0\0\0\0\0\0\x07example\x03com\0\0\x01\0\x03",
        false,
    ),
];

/// What the bytes mean, by both readings. A reply without an address that is one ends the leg without data (RFC 1035,
/// section 4.1.1: RCODE 0).
fn judged_of(wanted: bool) -> [Option<Judged>; 2] {
    if wanted {
        [Some(Judged::Final(Status::NoData)); 2]
    } else {
        [None; 2]
    }
}

#[test]
fn replies_answer_their_query(rt: HostRuntime) -> Result<(), Fail> {
    let alloc = rt.alloc();
    let asked = address_of_example(alloc)?;
    let terms = plain_terms(alloc)?;
    for (exact, bytes, wanted) in MESSAGES.iter() {
        let found = judged_twice(alloc, *bytes, &asked, *exact, terms)?;
        assert!(rt; found == judged_of(*wanted));
    }
    Ok(())
}
