//! The order of destinations and the choice of a source, as tables.

use dest_sorting::{sort, source_for};
use item_list::NoMemory;
use net_addr::{Addr, AddrList, read};
use std::alloc::Global;
use std::test::Fail;

/// The addresses of a text, with blanks between them.
pub fn list(alloc: Global, text: &str) -> Result<AddrList, Fail> {
    let mut list = AddrList::new(alloc);
    for word in text.split_whitespace() {
        list.push(read(word.as_bytes()).ok_or("no address")?)?;
    }
    Ok(list)
}

/// Destination, sources, and which of these serves. The first three are RFC 6724's (section 10.1). In the others the
/// ties of the rules aren't transitive (a mapped source ties with both its neighbours), or no source has the family.
const SOURCES: [(&str, &str, &str); 6] = [
    ("2001:db8:1::1", "2001:db8:3::1 fe80::1", "2001:db8:3::1"),
    ("ff05::1", "2001:db8:3::1 fe80::1", "2001:db8:3::1"),
    (
        "2001:db8:1::1",
        "2001:db8:1::2 2001:db8:3::2",
        "2001:db8:1::2",
    ),
    (
        "2001:db8::1",
        "3ffe::1 ::ffff:192.0.2.1 2002::1",
        "::ffff:192.0.2.1",
    ),
    ("192.0.2.1", "2001:db8:3::1 ::ffff:192.0.2.1", ""),
    ("2001:db8::1", "192.0.2.1", ""),
];

// Whether of these sources this one serves the destination, or none where the text is empty.
fn serves(alloc: Global, dest: &str, sources: &str, wanted: &str) -> Result<bool, Fail> {
    let sources = list(alloc, sources)?;
    match read(dest.as_bytes()) {
        Some(dest) => Ok(source_for(dest, sources.as_slice()) == read(wanted.as_bytes())),
        None => Ok(false),
    }
}

#[test]
fn sources_are_chosen(rt: HostRuntime) -> Result<(), Fail> {
    for (dest, sources, wanted) in SOURCES.iter() {
        assert!(rt; serves(rt.alloc(), dest, sources, wanted)?);
    }
    Ok(())
}

/// Sources, destinations, and their order. All but the last two are RFC 6724's (section 10.2): by rules 2, 2, 6, 8, 9, 5
/// and 6. The last but one has no source at all: by rules 6 and 8. In the last no rule decides, and the order stays: IPv4
/// destinations share no prefix that counts.
const SORTED: [(&str, &str, &str); 9] = [
    (
        "2001:db8:1::2 fe80::1 169.254.13.78",
        "198.51.100.121 2001:db8:1::1",
        "2001:db8:1::1 198.51.100.121",
    ),
    (
        "fe80::1 198.51.100.117",
        "2001:db8:1::1 198.51.100.121",
        "198.51.100.121 2001:db8:1::1",
    ),
    (
        "2001:db8:1::2 fe80::1 10.1.2.4",
        "10.1.2.3 2001:db8:1::1",
        "2001:db8:1::1 10.1.2.3",
    ),
    (
        "2001:db8:1::2 fe80::2",
        "2001:db8:1::1 fe80::1",
        "fe80::1 2001:db8:1::1",
    ),
    (
        "2001:db8:1::2 2001:db8:3f44::2 fe80::2",
        "2001:db8:3ffe::1 2001:db8:1::1",
        "2001:db8:1::1 2001:db8:3ffe::1",
    ),
    (
        "2002:c633:6401::2 fe80::2",
        "2001:db8:1::1 2002:c633:6401::1",
        "2002:c633:6401::1 2001:db8:1::1",
    ),
    (
        "2002:c633:6401::2 2001:db8:1::2 fe80::2",
        "2002:c633:6401::1 2001:db8:1::1",
        "2001:db8:1::1 2002:c633:6401::1",
    ),
    (
        "",
        "192.0.2.1 2001:db8::5 fe80::1",
        "fe80::1 2001:db8::5 192.0.2.1",
    ),
    (
        "10.0.0.1",
        "192.0.2.1 10.0.0.2 192.0.2.1 198.51.100.1",
        "192.0.2.1 10.0.0.2 192.0.2.1 198.51.100.1",
    ),
];

// Whether these destinations sort so.
fn sorts(
    alloc: Global,
    sources: &[Addr],
    given: &[Addr],
    wanted: &[Addr],
) -> Result<bool, NoMemory> {
    let sorted = sort(alloc, given, sources)?;
    Ok(sorted.as_slice() == wanted)
}

// Whether the destinations of a text sort so, and stay so when they are sorted again.
fn row_sorts(alloc: Global, sources: &str, given: &str, wanted: &str) -> Result<bool, Fail> {
    let sources = list(alloc, sources)?;
    let given = list(alloc, given)?;
    let wanted = list(alloc, wanted)?;
    Ok(
        sorts(
            alloc,
            sources.as_slice(),
            given.as_slice(),
            wanted.as_slice(),
        )? && sorts(
            alloc,
            sources.as_slice(),
            wanted.as_slice(),
            wanted.as_slice(),
        )?,
    )
}

#[test]
fn destinations_are_sorted(rt: HostRuntime) -> Result<(), Fail> {
    for (sources, given, wanted) in SORTED.iter() {
        assert!(rt; row_sorts(rt.alloc(), sources, given, wanted)?);
    }
    Ok(())
}
