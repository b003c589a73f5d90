//! Names: their texts, the first faults of texts and labels, and names beside names.
use dns_message::{Name, NameFault};
use std::alloc::Global;
use std::test::Fail;

/// A text, the name as it is printed, and whether the text ends with a dot.
const TEXTS: [(&[u8], &[u8], bool); 5] = [
    (b".", b".", true),
    (b"www.example.com", b"www.example.com.", false),
    (b"Foo\\.bar.com.", b"Foo\\.bar.com.", true),
    (b"a\\000\\\\\\255b", b"a\\000\\\\\\255b.", false),
    (b"\\032\\a\\046", b"\\032a\\..", false),
];

/// A text that is no name, and the first fault.
const NO_NAMES: [(&[u8], NameFault); 7] = [
    (b"", NameFault::EmptyLabel(0)),
    (b"..", NameFault::EmptyLabel(0)),
    (b"a..b", NameFault::EmptyLabel(2)),
    (b"a\\", NameFault::BadEscape(1)),
    (b"\\256", NameFault::BadEscape(0)),
    (b"ab\\12", NameFault::BadEscape(2)),
    (b"\\1a2", NameFault::BadEscape(0)),
];

/// Whether the text is a name that is printed so.
fn is_printed(alloc: Global, text: &[u8], printed: &[u8], absolute: bool) -> Result<bool, Fail> {
    let found = Name::from_text(alloc, text)?;
    Ok(found.absolute == absolute && found.name.to_text(alloc)?.as_slice() == printed)
}

#[test]
fn texts_of_names(rt: HostRuntime) -> Result<(), Fail> {
    for (text, printed, absolute) in TEXTS.iter() {
        assert!(rt; is_printed(rt.alloc(), *text, *printed, *absolute)?);
    }
    Ok(())
}

#[test]
fn texts_of_no_names(rt: HostRuntime) {
    for (text, fault) in NO_NAMES.iter() {
        assert!(rt; Name::from_text(rt.alloc(), *text).err() == Some(*fault));
    }
}

/// A text of labels of these lengths, with dots between them, and then a suffix.
fn long_text(alloc: Global, lengths: &[u8], suffix: &[u8]) -> Result<Vec<u8>, Fail> {
    let mut text = Vec::new(alloc);
    for len in lengths {
        if !text.is_empty() {
            text.push(b'.')?;
        }
        for _ in 0..*len {
            text.push(b'a')?;
        }
    }
    text.extend_from_slice(suffix)?;
    Ok(text)
}

/// The lengths of labels, what follows them, and the first fault.
const LENGTHS: [(&[u8], &[u8], Option<NameFault>); 7] = [
    (&[63], b"", None),
    (&[64], b"", Some(NameFault::LongLabel(63))),
    (&[3, 63], b"\\.", Some(NameFault::LongLabel(67))),
    (&[63, 63, 63, 61], b"", None),
    (&[63, 63, 63, 61], b".", None),
    (&[63, 63, 63, 62], b"", Some(NameFault::LongName(192))),
    (&[63, 63, 63, 62], b"..", Some(NameFault::LongName(192))),
];

/// Whether the text of such labels and a suffix has this first fault, or none.
fn text_has(
    alloc: Global,
    lengths: &[u8],
    suffix: &[u8],
    fault: Option<NameFault>,
) -> Result<bool, Fail> {
    let text = long_text(alloc, lengths, suffix)?;
    Ok(Name::from_text(alloc, text.as_slice()).err() == fault)
}

#[test]
fn longest_texts(rt: HostRuntime) -> Result<(), Fail> {
    for (lengths, suffix, fault) in LENGTHS.iter() {
        assert!(rt; text_has(rt.alloc(), *lengths, *suffix, *fault)?);
    }
    Ok(())
}

/// A label of 64 bytes, of which parts are taken.
const LONG: &[u8; 64] = b"aaaaaaaaaaaaaaaaaaaaaaaaaaaaaaaaaaaaaaaaaaaaaaaaaaaaaaaaaaaaaaaa";

/// The lengths of labels, and the first fault with its label's index.
const LABELS: [([usize; 4], Option<NameFault>); 4] = [
    ([63, 63, 63, 61], None),
    ([63, 63, 63, 62], Some(NameFault::LongName(3))),
    ([63, 64, 0, 1], Some(NameFault::LongLabel(1))),
    ([1, 2, 0, 64], Some(NameFault::EmptyLabel(2))),
];

/// A label of so many bytes, at most 64.
fn label_of(len: usize) -> &'static [u8] {
    &LONG[..len.min(64)]
}

#[test]
fn longest_labels(rt: HostRuntime) {
    for ([a, b, c, d], fault) in LABELS.iter() {
        let labels = [label_of(*a), label_of(*b), label_of(*c), label_of(*d)];
        assert!(rt; Name::from_labels(rt.alloc(), &labels).err() == *fault);
    }
}

#[test]
fn longest_name(rt: HostRuntime) -> Result<(), Fail> {
    let label = label_of(63);
    let name = Name::from_labels(rt.alloc(), &[label, label, label, label_of(61)])?;
    assert!(rt; name.labels() == 4 && name.wire_len() == 255);
    Ok(())
}

#[test]
fn names_that_are_the_same(rt: HostRuntime) -> Result<(), Fail> {
    let alloc = rt.alloc();
    let name = Name::from_text(alloc, b"WWW.Example.org.")?.name;
    let lower = Name::from_text(alloc, b"www.example.ORG")?.name;
    assert!(rt; name.same(&lower) && name.copy(alloc)?.same(&lower));
    assert!(rt; name.last_is(b"Org") && !name.last_is(b"www"));
    assert!(rt; !Name::root(alloc).last_is(b""));
    Ok(())
}

#[test]
fn joined_names(rt: HostRuntime) -> Result<(), Fail> {
    let alloc = rt.alloc();
    let name = Name::from_text(alloc, b"WWW.Example.org.")?.name;
    let host = Name::from_labels(alloc, &[b"host".as_slice()])?;
    let text = match host.joined(alloc, &name)? {
        Some(found) => found.to_text(alloc)?,
        None => host.to_text(alloc)?,
    };
    assert!(rt; text.as_slice() == b"host.WWW.Example.org.".as_slice());
    Ok(())
}
