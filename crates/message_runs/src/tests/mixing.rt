//! Names in mixed case, and names that are equal byte for byte.
use dns_message::Name;
use std::alloc::Global;
use std::test::Fail;

/// A text, the bits that mix, and the text in mixed case: bit k is for letter k, and from letter 16 on they repeat.
const MIXED: [(&[u8], u16, &[u8]); 6] = [
    (b"aaaaaaaaaaaaaaaaa", 0x0001, b"AaaaaaaaaaaaaaaaA."),
    (b"example.com", 0x0005, b"ExAmple.com."),
    (b"example.com", 0x0080, b"example.Com."),
    (b"A1-b_2.C", 0x0004, b"a1-b_2.C."),
    (b"ZZ\\200", 0xffff, b"ZZ\\200."),
    (b".", 0xffff, b"."),
];

/// Whether the text in mixed case is printed so, and the same name.
fn is_mixed(alloc: Global, text: &[u8], mix: u16, printed: &[u8]) -> Result<bool, Fail> {
    let name = Name::from_text(alloc, text)?.name;
    let mixed = name.mixed(alloc, mix)?;
    Ok(mixed.to_text(alloc)?.as_slice() == printed && mixed.same(&name))
}

#[test]
fn names_in_mixed_case(rt: HostRuntime) -> Result<(), Fail> {
    for (text, mix, printed) in MIXED.iter() {
        assert!(rt; is_mixed(rt.alloc(), *text, *mix, *printed)?);
    }
    Ok(())
}

#[test]
fn equal_names(rt: HostRuntime) -> Result<(), Fail> {
    let alloc = rt.alloc();
    let name = Name::from_text(alloc, b"example.com")?.name;
    let mixed = name.mixed(alloc, 0x0005)?;
    assert!(rt; mixed.as_wire() == b"\x07\x45\x78\x41\x6d\x70\x6c\x65\x03com".as_slice());
    assert!(rt; !mixed.equal(&name) && mixed.mixed(alloc, 0)?.equal(&name));
    Ok(())
}
