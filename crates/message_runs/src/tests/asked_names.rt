//! Names in questions: pointers, case and lengths.

use super::{address_of, says};
use message_walk::read_outline;
use std::alloc::Global;
use std::test::Fail;

/// The name that was asked for, whether letters' case counts, the message's bytes, and whether the question's name is it. The header's first bytes are labels in some: its identifier is then 0x0161, a label of the one letter a,
/// and its flags are 0, the root's byte.
const NAMES: [(&[u8], bool, &[u8], bool); 14] = [
    // the name as it was asked
    (
        b"ab.c",
        true,
        b"\0\0\x80\0\0\x01\0\0\0\0\0\0\x02ab\x01c\0\0\x01\0\x01",
        true,
    ),
    // another case
    (
        b"ab.c",
        false,
        b"\0\0\x80\0\0\x01\0\0\0\0\0\0\x02aB\x01C\0\0\x01\0\x01",
        true,
    ),
    // another case, which counts
    (
        b"ab.c",
        true,
        b"\0\0\x80\0\0\x01\0\0\0\0\0\0\x02aB\x01c\0\0\x01\0\x01",
        false,
    ),
    // a label less
    (
        b"ab.c",
        false,
        b"\0\0\x80\0\0\x01\0\0\0\0\0\0\x02ab\0\0\x01\0\x01",
        false,
    ),
    // a label more
    (
        b"ab.c",
        false,
        b"\0\0\x80\0\0\x01\0\0\0\0\0\0\x02ab\x01c\x01d\0\0\x01\0\x01",
        false,
    ),
    // the same letters in other labels
    (
        b"ab.c",
        false,
        b"\0\0\x80\0\0\x01\0\0\0\0\0\0\x01a\x02bc\0\0\x01\0\x01",
        false,
    ),
    // the root
    (
        b".",
        true,
        b"\0\0\x80\0\0\x01\0\0\0\0\0\0\0\0\x01\0\x01",
        true,
    ),
    // the root, by a pointer to the header's fifth byte, which is zero
    (
        b".",
        true,
        b"\0\0\x80\0\0\x01\0\0\0\0\0\0\xc0\x04\0\x01\0\x01",
        true,
    ),
    // a pointer to the identifier
    (
        b"a",
        true,
        b"\x01a\0\0\0\x01\0\0\0\0\0\0\xc0\0\0\x01\0\x01",
        true,
    ),
    // a label and a pointer to the identifier
    (
        b"b.A",
        false,
        b"\x01a\0\0\0\x01\0\0\0\0\0\0\x01B\xc0\0\0\x01\0\x01",
        true,
    ),
    // the same, where another name was asked
    (
        b"b.c",
        false,
        b"\x01a\0\0\0\x01\0\0\0\0\0\0\x01b\xc0\0\0\x01\0\x01",
        false,
    ),
    // a pointer to itself
    (
        b"a",
        false,
        b"\x01a\0\0\0\x01\0\0\0\0\0\0\xc0\x0c\0\x01\0\x01",
        false,
    ),
    // a pointer to a byte that begins no label
    (
        b"a",
        false,
        b"\x01a\x80\0\0\x01\0\0\0\0\0\0\xc0\x02\0\x01\0\x01",
        false,
    ),
    // a pointer that is cut
    (b"a", false, b"\x01a\0\0\0\x01\0\0\0\0\0\0\xc0", false),
];

/// Whether the message asks for the addresses of this name, where that is wanted, and else doesn't.
fn asks_so(
    alloc: Global,
    name: &[u8],
    exact: bool,
    bytes: &[u8],
    wanted: bool,
) -> Result<bool, Fail> {
    let asked = address_of(alloc, name)?;
    let expected = if wanted { says(false, None) } else { None };
    Ok(read_outline(bytes, &asked, exact, None) == expected)
}

#[test]
fn questions_are_told_by_their_name(rt: HostRuntime) -> Result<(), Fail> {
    for (name, exact, bytes, wanted) in NAMES.iter() {
        assert!(rt; asks_so(rt.alloc(), *name, *exact, *bytes, *wanted)?);
    }
    Ok(())
}
