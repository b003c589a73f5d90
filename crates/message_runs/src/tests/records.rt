//! Outside examples: records as bytes and as lines, and the words of types and classes.

use dns_message::{Bytes, Name, Record};
use dns_rdata::{
    RdataFault, RecordData, class_text, class_word, kind_text, kind_word, line, rdata,
};
use std::alloc::Global;
use std::test::Fail;

/// A record and its line.
struct Case {
    name: &'static [u8],
    kind: u16,
    class: u16,
    ttl: u32,
    rdata: &'static [u8],
    line: &'static [u8],
}

/// The record of a case.
fn record(alloc: Global, case: &Case) -> Result<Record, Fail> {
    Ok(Record {
        name: Name::from_text(alloc, case.name)?.name,
        kind: case.kind,
        class: case.class,
        ttl: case.ttl,
        rdata: Bytes::of(alloc, case.rdata)?,
    })
}

/// Whether the record of a case has its line.
fn has_line(alloc: Global, case: &Case) -> Result<bool, Fail> {
    Ok(line(alloc, &record(alloc, case)?)?.as_slice() == case.line)
}

/// RFC 1034, section 6.2, RFC 1035, section 5.3, RFC 2782 and RFC 3596, section 2.5, whose records have these fields;
/// the lines are laid out as dig prints them, with single blanks.
const STANDARD: [Case; 9] = [
    Case {
        name: b"SRI-NIC.ARPA.",
        kind: 1,
        class: 1,
        ttl: 86400,
        rdata: b"\x1a\0\0\x49",
        line: b"SRI-NIC.ARPA. 86400 IN A 26.0.0.73\n",
    },
    Case {
        name: b"MIL",
        kind: 2,
        class: 1,
        ttl: 86400,
        rdata: b"\x07SRI-NIC\x04ARPA\0",
        line: b"MIL. 86400 IN NS SRI-NIC.ARPA.\n",
    },
    Case {
        name: b"USC-ISIC.ARPA",
        kind: 5,
        class: 1,
        ttl: 86400,
        rdata: b"\x01C\x03ISI\x03EDU\0",
        line: b"USC-ISIC.ARPA. 86400 IN CNAME C.ISI.EDU.\n",
    },
    Case {
        name: b"ISI.EDU",
        kind: 6,
        class: 1,
        ttl: 60,
        rdata: b"\x06VENERA\x03ISI\x03EDU\0\x0eAction.domains\x03ISI\x03EDU\0\0\0\0\x14\0\0\x1c\x20\0\0\x02\x58\0\x36\xee\x80\0\0\0\x3c",
        line: b"ISI.EDU. 60 IN SOA VENERA.ISI.EDU. Action\\.domains.ISI.EDU. 20 7200 600 3600000 60\n",
    },
    Case {
        name: b"52.0.0.10.IN-ADDR.ARPA",
        kind: 12,
        class: 1,
        ttl: 0,
        rdata: b"\x01C\x03ISI\x03EDU\0",
        line: b"52.0.0.10.IN-ADDR.ARPA. 0 IN PTR C.ISI.EDU.\n",
    },
    Case {
        name: b"SRI-NIC.ARPA",
        kind: 13,
        class: 1,
        ttl: 86400,
        rdata: b"\x08DEC-2060\x06TOPS20",
        line: b"SRI-NIC.ARPA. 86400 IN HINFO \"DEC-2060\" \"TOPS20\"\n",
    },
    Case {
        name: b"ISI.EDU",
        kind: 15,
        class: 1,
        ttl: 60,
        rdata: b"\0\x0a\x06VENERA\x03ISI\x03EDU\0",
        line: b"ISI.EDU. 60 IN MX 10 VENERA.ISI.EDU.\n",
    },
    Case {
        name: b"a.test",
        kind: 28,
        class: 1,
        ttl: 4294967295,
        rdata: b"\x43\x21\0\0\0\x01\0\x02\0\x03\0\x04\x05\x67\x89\xab",
        line: b"a.test. 4294967295 IN AAAA 4321:0:1:2:3:4:567:89ab\n",
    },
    Case {
        name: b"_foobar._tcp.example.com",
        kind: 33,
        class: 1,
        ttl: 60,
        rdata: b"\0\0\0\x01\0\x09\x0cold-slow-box\x07example\x03com\0",
        line: b"_foobar._tcp.example.com. 60 IN SRV 0 1 9 old-slow-box.example.com.\n",
    },
];

#[test]
fn lines_of_the_standards(rt: HostRuntime) -> Result<(), Fail> {
    for case in STANDARD.iter() {
        assert!(rt; has_line(rt.alloc(), case)?);
    }
    Ok(())
}

/// Strings as dig prints them; without a string no blank stands at the end.
const STRINGS: [Case; 2] = [
    Case {
        name: b".",
        kind: 16,
        class: 3,
        ttl: 0,
        rdata: b"\x08a\"b\\c \xc3\xa9\0\x02\x7e\x7f",
        line: b". 0 CH TXT \"a\\\"b\\\\c \\195\\169\" \"\" \"~\\127\"\n",
    },
    Case {
        name: b"a.test",
        kind: 16,
        class: 1,
        ttl: 60,
        rdata: b"",
        line: b"a.test. 60 IN TXT\n",
    },
];

#[test]
fn strings_are_quoted(rt: HostRuntime) -> Result<(), Fail> {
    for case in STRINGS.iter() {
        assert!(rt; has_line(rt.alloc(), case)?);
    }
    Ok(())
}

/// The examples of RFC 3597, section 5; dig prints the digits in upper case, and A and SRV of other classes too. The
/// bytes of an A record that has three, and OPT records, are this project's own profile.
const UNKNOWN: [Case; 7] = [
    Case {
        name: b"a.example",
        kind: 731,
        class: 32,
        ttl: 0,
        rdata: b"\xab\xcd\xef\x01\x23\x45",
        line: b"a.example. 0 CLASS32 TYPE731 \\# 6 abcdef012345\n",
    },
    Case {
        name: b"b.example",
        kind: 62347,
        class: 4,
        ttl: 0,
        rdata: b"",
        line: b"b.example. 0 CLASS4 TYPE62347 \\# 0\n",
    },
    Case {
        name: b"a.test",
        kind: 65280,
        class: 255,
        ttl: 60,
        rdata: b"\x0a\x0b",
        line: b"a.test. 60 ANY TYPE65280 \\# 2 0a0b\n",
    },
    Case {
        name: b"a.test",
        kind: 33,
        class: 3,
        ttl: 60,
        rdata: b"\0\0\0\x01\0\x09\0",
        line: b"a.test. 60 CH SRV \\# 7 00000001000900\n",
    },
    Case {
        name: b"e.example",
        kind: 1,
        class: 1,
        ttl: 60,
        rdata: b"\x0a\0\0",
        line: b"e.example. 60 IN A \\# 3 0a0000\n",
    },
    Case {
        name: b".",
        kind: 41,
        class: 1232,
        ttl: 0,
        rdata: b"",
        line: b". OPT size 1232 ext 0 version 0 do 0 \\# 0\n",
    },
    Case {
        name: b".",
        kind: 41,
        class: 4096,
        ttl: 0x0102_8000,
        rdata: b"\0\x0a\0\x08\x24\x64\xc4\xab\xcf\x10\xc9\x57",
        line: b". OPT size 4096 ext 1 version 2 do 1 \\# 12 000a00082464c4abcf10c957\n",
    },
];

#[test]
fn unknown_forms(rt: HostRuntime) -> Result<(), Fail> {
    for case in UNKNOWN.iter() {
        assert!(rt; has_line(rt.alloc(), case)?);
    }
    Ok(())
}

/// A kind, and rdata that hasn't its shape (RFC 1035, section 3.3): a cut string, bytes that are left over, a pointer, and a
/// name of 256 bytes.
const BAD: [(u16, &[u8]); 13] = [
    (1, b"\x0a\0\0\x01\0"),
    (2, b"\x01a"),
    (2, b"\x01a\0\0"),
    (5, b"\xc0\x0c"),
    (
        12,
        b"\x40aaaaaaaaaaaaaaaaaaaaaaaaaaaaaaaaaaaaaaaaaaaaaaaaaaaaaaaaaaaaaaaa\0",
    ),
    (6, b"\0\0\0\0\0\x01\0\0\0\x02\0\0\0\x03\0\0\0\x04\0\0\0"),
    (13, b"\x01a"),
    (13, b"\x01a\x01b\0"),
    (15, b"\0"),
    (16, b"\x02a"),
    (28, b"\x0a\0\0\x01"),
    (33, b"\0\0\0\x01\0\x09"),
    (
        2,
        b"\x3faaaaaaaaaaaaaaaaaaaaaaaaaaaaaaaaaaaaaaaaaaaaaaaaaaaaaaaaaaaaaaa\x3faaaaaaaaaaaaaaaaaaaaaaaaaaaaaaaaaaaaaaaaaaaaaaaaaaaaaaaaaaaaaaa\x3faaaaaaaaaaaaaaaaaaaaaaaaaaaaaaaaaaaaaaaaaaaaaaaaaaaaaaaaaaaaaaa\x3eaaaaaaaaaaaaaaaaaaaaaaaaaaaaaaaaaaaaaaaaaaaaaaaaaaaaaaaaaaaaaa\0",
    ),
];

/// What a record of the root has, of these kind, class and rdata.
fn rdata_of(alloc: Global, kind: u16, class: u16, bytes: &[u8]) -> Result<RecordData, RdataFault> {
    let item = Record {
        name: Name::root(alloc),
        kind,
        class,
        ttl: 0,
        rdata: Bytes::of(alloc, bytes)?,
    };
    rdata(alloc, &item)
}

#[test]
fn shapes_are_minded(rt: HostRuntime) {
    for (kind, bytes) in BAD.iter() {
        let found = rdata_of(rt.alloc(), *kind, 1, *bytes);
        assert!(rt; matches!(found, Err(RdataFault::BadRdata)));
    }
}

// The options of an OPT record stay as they stand (RFC 6891, section 6.1.2).
#[test]
fn options_are_kept(rt: HostRuntime) -> Result<(), Fail> {
    let bytes = b"\0\x0a\0\x01x".as_slice();
    match rdata_of(rt.alloc(), 41, 1232, bytes)? {
        RecordData::Opt(options) => assert!(rt; options.as_slice() == bytes),
        _ => assert!(rt; false),
    }
    Ok(())
}

/// Words, and the types that they name (RFC 1035, section 3.2, and RFC 3597, section 5).
const KINDS: [(&[u8], Option<u16>); 12] = [
    (b"a", Some(1)),
    (b"AaAa", Some(28)),
    (b"ANY", Some(255)),
    (b"TYPE41", Some(41)),
    (b"type0", Some(0)),
    (b"TYPE65535", Some(65535)),
    (b"OPT", None),
    (b"TYPE65536", None),
    (b"TYPE01", None),
    (b"TYPE", None),
    (b"TYPE+1", None),
    (b"", None),
];

/// The same for classes.
const CLASSES: [(&[u8], Option<u16>); 5] = [
    (b"in", Some(1)),
    (b"Ch", Some(3)),
    (b"ANY", Some(255)),
    (b"class32", Some(32)),
    (b"CLASS00", None),
];

#[test]
fn words_name_types(rt: HostRuntime) -> Result<(), Fail> {
    for (word, kind) in KINDS.iter() {
        assert!(rt; kind_word(*word) == *kind);
    }
    for (word, class) in CLASSES.iter() {
        assert!(rt; class_word(*word) == *class);
    }
    assert!(rt; kind_text(rt.alloc(), 41)?.as_slice() == b"OPT".as_slice());
    assert!(rt; kind_text(rt.alloc(), 99)?.as_slice() == b"TYPE99".as_slice());
    assert!(rt; class_text(rt.alloc(), 255)?.as_slice() == b"ANY".as_slice());
    assert!(rt; class_text(rt.alloc(), 4)?.as_slice() == b"CLASS4".as_slice());
    Ok(())
}
