//! What the replies of an Address request come to.

use super::*;

/// A record: its owner, its type, its class and its rdata.
type Row = (&'static str, u16, u16, &'static [u8]);

/// A leg's end: its status and its reply's answers.
type Leg = (Status, &'static [Row]);

const FOUR: Addr = Addr::V4(0xc000_0201);

const SIX: Addr = Addr::V6(0x2001_0db8_0000_0000_0000_0000_0000_0005);

const LINK: Addr = Addr::V6(0xfe80_0000_0000_0000_0000_0000_0000_0001);

const A: Row = ("b.test", 1, 1, b"\xc0\x00\x02\x01");

const CHAOS: Row = ("b.test", 1, 3, b"\xc0\x00\x02\x02");

const AAAA: Row = (
    "b.test",
    28,
    1,
    b"\x20\x01\x0d\xb8\0\0\0\0\0\0\0\0\0\0\0\x05",
);

const LINK_LOCAL: Row = ("b.test", 28, 1, b"\xfe\x80\0\0\0\0\0\0\0\0\0\0\0\0\0\x01");

const FIRST_ALIAS: Row = ("WWW.test", 5, 1, b"\x01a\x04test\0");

const SECOND_ALIAS: Row = ("a.test", 5, 1, b"\x01b\x04test\0");

const OTHER_ALIAS: Row = ("other.test", 5, 1, b"\x01c\x04test\0");

/// Two legs of a candidate www.test, whether the addresses stay as they stand, and the answer.
type Merging = (Leg, Leg, bool, Expected);

/// Without sources fe80::1, 2001:db8::5 and
/// 192.0.2.1 are tried in this order, by rules 6 and 8 of RFC 6724, section 6.
const ROWS: &[Merging] = &[
    (
        (Status::Success, &[A]),
        (Status::Success, &[AAAA, LINK_LOCAL]),
        false,
        (0, &[LINK, SIX, FOUR], "www.test."),
    ),
    (
        (Status::Success, &[A]),
        (Status::Success, &[AAAA, LINK_LOCAL]),
        true,
        (0, &[FOUR, SIX, LINK], "www.test."),
    ),
    (
        (Status::Success, &[A]),
        (Status::ServFail, &[AAAA]),
        false,
        (0, &[FOUR], "www.test."),
    ),
    (
        (Status::TimedOut, &[]),
        (Status::Success, &[FIRST_ALIAS, SECOND_ALIAS, AAAA]),
        false,
        (0, &[SIX], "b.test."),
    ),
    (
        (Status::Success, &[FIRST_ALIAS, A]),
        (Status::Success, &[SECOND_ALIAS, AAAA]),
        false,
        (0, &[SIX, FOUR], "a.test."),
    ),
    (
        (Status::Success, &[OTHER_ALIAS, A]),
        (Status::NoData, &[FIRST_ALIAS]),
        false,
        (0, &[FOUR], "www.test."),
    ),
    (
        (Status::Success, &[SECOND_ALIAS, FIRST_ALIAS, A]),
        (Status::NoData, &[]),
        false,
        (0, &[FOUR], "a.test."),
    ),
    (
        (Status::Success, &[AAAA, CHAOS]),
        (Status::Success, &[A]),
        false,
        (0, &[], "."),
    ),
    (
        (Status::NotFound, &[]),
        (Status::NoData, &[]),
        false,
        (1, &[], "."),
    ),
    (
        (Status::NoData, &[]),
        (Status::ServFail, &[]),
        false,
        (1, &[], "."),
    ),
    (
        (Status::NotFound, &[]),
        (Status::ServFail, &[]),
        false,
        (3, &[], "."),
    ),
    (
        (Status::TimedOut, &[]),
        (Status::ConnRefused, &[]),
        false,
        (12, &[], "."),
    ),
    (
        (Status::NotFound, &[]),
        (Status::NotFound, &[]),
        false,
        (4, &[], "."),
    ),
];

fn record_of(alloc: Global, row: Row) -> Result<Record, Fail> {
    let (owner, kind, class, rdata) = row;
    Ok(Record {
        name: Name::from_text(alloc, owner.as_bytes())?.name,
        kind,
        class,
        ttl: 60,
        rdata: Bytes::of(alloc, rdata)?,
    })
}

fn end_of(alloc: Global, leg: Leg) -> Result<LegEnd, Fail> {
    let (status, rows) = leg;
    let mut records = RecordList::new(alloc);
    for row in rows {
        records.push(record_of(alloc, *row)?)?;
    }
    Ok(LegEnd::Ended(status, records))
}

/// The two legs of a request.
#[derive(Drop)]
struct Legs {
    left: LegEnd,
    right: LegEnd,
}

/// The answer of these legs of a candidate. There is none where one isn't well formed, or neither is used.
fn answer_for(
    alloc: Global,
    legs: &Legs,
    candidate: &Name,
    options: &Options,
    nosort: bool,
) -> Result<Option<Answer>, NoMemory> {
    let Legs { left, right } = legs;
    match (left, right) {
        (LegEnd::Unused, LegEnd::Unused) => Ok(None),
        _ if !left.is_well_formed() || !right.is_well_formed() => Ok(None),
        _ => Ok(Some(merge(alloc, 7, left, right, candidate, options, nosort)?)),
    }
}

/// The answer of these legs of www.test under the default options.
fn answer_of(alloc: Global, legs: &Legs, nosort: bool) -> Result<Option<Answer>, Fail> {
    let candidate = Name::from_text(alloc, b"www.test")?.name;
    let options = Options::plain(alloc)?;
    Ok(answer_for(alloc, legs, &candidate, &options, nosort)?)
}

/// Whether it is the expected one.
fn answers_so(alloc: Global, legs: &Legs, nosort: bool, expected: &Expected) -> Result<bool, Fail> {
    Ok(match answer_of(alloc, legs, nosort)? {
        Some(answer) => is_expected(alloc, &answer, expected)?,
        None => false,
    })
}

/// Whether the legs of a row are merged so.
fn is_merged(alloc: Global, row: &Merging) -> Result<bool, Fail> {
    let (left, right, nosort, expected) = *row;
    let legs = Legs {
        left: end_of(alloc, left)?,
        right: end_of(alloc, right)?,
    };
    answers_so(alloc, &legs, nosort, &expected)
}

#[test]
fn legs_are_merged(rt: HostRuntime) -> Result<(), Fail> {
    for row in ROWS {
        assert!(rt; is_merged(rt.alloc(), row)?);
    }
    Ok(())
}

/// One leg of a request for one family: its end, whether it is that of IPv6, and the answer.
type Single = (Leg, bool, Expected);

const SINGLE: &[Single] = &[
    (
        (Status::Success, &[FIRST_ALIAS, LINK_LOCAL, A, AAAA]),
        false,
        (0, &[FOUR], "a.test."),
    ),
    (
        (Status::Success, &[FIRST_ALIAS, LINK_LOCAL, A, AAAA]),
        true,
        (0, &[LINK, SIX], "a.test."),
    ),
    ((Status::Refused, &[AAAA]), true, (6, &[], ".")),
];

/// The legs of which one is used, that of IPv6 or else that of IPv4.
fn one_leg(end: LegEnd, is_second: bool) -> Legs {
    if is_second {
        Legs {
            left: LegEnd::Unused,
            right: end,
        }
    } else {
        Legs {
            left: end,
            right: LegEnd::Unused,
        }
    }
}

/// Whether the leg of a row is its answer. The leg of IPv6 stays as it stands.
fn is_its_answer(alloc: Global, row: &Single) -> Result<bool, Fail> {
    let (leg, is_second, expected) = *row;
    let legs = one_leg(end_of(alloc, leg)?, is_second);
    answers_so(alloc, &legs, is_second, &expected)
}

#[test]
fn one_leg_is_its_answer(rt: HostRuntime) -> Result<(), Fail> {
    for row in SINGLE {
        assert!(rt; is_its_answer(rt.alloc(), row)?);
    }
    Ok(())
}
